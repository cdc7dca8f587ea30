// Calls that read lent bytes: an entry of the contents, a walk over them, a row of the two tables, a hop by them.
use crate::answers;
use crate::arguments::Arguments;
use contents::Reader;
use hops::Tables;

pub fn entry(mut args: Arguments) -> Option<()> {
    let image = args.bytes()?;
    let number = args.long()?;
    args.end()?;
    answers::entry(format::entry_at(image, number));
    Some(())
}

// So many steps of a reader that stands at 0.
pub fn walk(mut args: Arguments) -> Option<()> {
    let image = args.bytes()?;
    let steps = args.number()?;
    args.end()?;
    let mut reader = Reader::new(image);
    for _ in 0..steps {
        answers::entry(reader.step());
    }
    Some(())
}

pub fn row(mut args: Arguments) -> Option<()> {
    let free = args.bytes()?;
    let falling = args.bytes()?;
    let nodes = args.number()?;
    let node = args.number()?;
    let class = args.number()?;
    args.end()?;
    answers::row(hops::row(free, falling, nodes, node, class));
    Some(())
}

pub fn hop(mut args: Arguments) -> Option<()> {
    let labels = args.bytes()?;
    let free = args.bytes()?;
    let falling = args.bytes()?;
    let nodes = args.number()?;
    let node = args.number()?;
    let class = args.number()?;
    let destination = args.number()?;
    args.end()?;
    let tables = Tables {
        nodes,
        labels,
        free,
        falling,
    };
    answers::hop(tables.hop(node, class, destination));
    Some(())
}
