// Calls that write into a lent buffer: route, read, write, build, cable and sheet. Each prints its answer, and then the whole buffer.
use crate::answers;
use crate::arguments::Arguments;
use cabling::Cabling;
use reading::Summary;
use refusal::Refusal;

// Room for any buffer. `main` has it, so that it stands once on the stack.
pub type Space = [u8; format::HALF_WORD];

// Before the call byte i is 7 i + 13, its low byte.
fn fill(buffer: &mut [u8]) {
    let mut byte: u8 = 13;
    for b in buffer.iter_mut() {
        *b = byte;
        byte = byte.wrapping_add(7);
    }
}

// Lends the call so many bytes of the space as its buffer, and prints the whole of it afterwards.
fn lend<F: FnOnce(&mut [u8])>(space: &mut Space, size: u16, call: F)
    requires { F.IsAlwaysCallable call }
{
    let buffer = &mut space[..usize::from(size)];
    fill(buffer);
    call(buffer);
    answers::line(b"buffer", buffer);
}

// A call of an image or a sheet alone.
fn alone<F: Fn(&[u8], &mut [u8])>(mut args: Arguments, space: &mut Space, call: F) -> Option<()>
    requires { F.IsAlwaysCallable call }
{
    let input = args.bytes()?;
    let size = args.half()?;
    args.end()?;
    lend(space, size, |buffer| call(input, buffer));
    Some(())
}

pub fn route(mut args: Arguments, space: &mut Space) -> Option<()> {
    let image = args.bytes()?;
    let source = args.number()?;
    let destination = args.number()?;
    let size = args.half()?;
    args.end()?;
    lend(space, size, |buffer| {
        answers::written(b"route", route::route(image, source, destination, buffer))
    });
    Some(())
}

fn read_line(answer: Result<Summary, Refusal>) {
    match answer {
        Ok(read) => answers::line(b"read", &[read.nodes, read.links, usize::from(read.full)]),
        Err(r) => answers::refused(r),
    }
}

pub fn read(args: Arguments, space: &mut Space) -> Option<()> {
    alone(
        args,
        space,
        |image, buffer| read_line(reading::read(image, buffer)),
    )
}

pub fn write(mut args: Arguments, space: &mut Space) -> Option<()> {
    let nodes = args.number()?;
    let full = args.number()? != 0;
    let pairs = args.bytes()?;
    let size = args.half()?;
    args.end()?;
    let cabling = Cabling { nodes, pairs };
    lend(space, size, |buffer| {
        answers::written(b"wrote", writing::write(&cabling, full, buffer))
    });
    Some(())
}

pub fn build(args: Arguments, space: &mut Space) -> Option<()> {
    alone(args, space, |image, buffer| {
        answers::written(b"built", writing::build(image, buffer))
    })
}

pub fn cable(args: Arguments, space: &mut Space) -> Option<()> {
    alone(args, space, |sheet, buffer| {
        answers::written(b"cabled", sheets::cable(sheet, buffer))
    })
}

pub fn sheet(args: Arguments, space: &mut Space) -> Option<()> {
    alone(args, space, |image, buffer| {
        answers::written(b"sheet", sheets::sheet(image, buffer))
    })
}
