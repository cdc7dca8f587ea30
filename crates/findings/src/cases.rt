// The networks that are run (RULES 11.2): empty input; 1, 64 and 65 nodes; 513 pairs; a pair turned round; a pair twice; degrees 16 and 17; two parts; no
// messages; and sheets.
ghost use Rattle.std.specs.Prelude.{◌≤◌, ◌<◌, length};

use crate::programs::{self, ROOM};
use laid::Page;

// A links image up to its pairs.
fn head(n: u8, pairs: usize, out: &mut Page<'_>)
    requires { pairs ≤ 1000 }
{
    out.put(&[1, 1]);
    out.put(&format::entry_bytes(1, 8, 2 + 2 * pairs));
    out.put(&[n, 0]);
}

// The path 0-1-2-.., or hub 0 and its leaves.
fn tree(n: u8, in_a_path: bool, out: &mut Page<'_>)
    requires { 0 < n }
{
    head(n, usize::from(n) - 1, out);
    // By number: b is the node that is linked to one below it.
    for b in 1..n {
        let below = if in_a_path { b - 1 } else { 0 };
        out.put(&[below, b]);
    }
}

// 513 pairs in rising order: from node 0 to nodes 32 to 63, from node 1 to the same, .. (`as`: all are below 64.)
fn many(out: &mut Page<'_>) {
    head(64, 513, out);
    // By number: pair k is made up of it.
    for k in 0..513usize {
        out.put(&[(k / 32) as u8, (32 + k % 32) as u8]);
    }
}

// The network of n nodes and these pairs.
fn listed(n: u8, pairs: &[u8], out: &mut Page<'_>)
    requires { length pairs.now ≤ 1000 }
{
    head(n, pairs.len() / 2, out);
    out.put(pairs);
}

// A line of what it is and what becomes of it.
fn tell(name: &[u8], image: &[u8]) {
    io::write_all(1, name);
    match image::verdict(image) {
        Ok(()) => {
            io::write_all(1, b"accepted\n");
        }
        Err(r) => programs::say(
            &mut [0; lines::LONGEST_REFUSAL],
            |out| lines::refusal_line(r, out),
        ),
    }
}

// The same of the image that is laid.
fn tell_laid<F: FnOnce(&mut Page<'_>)>(name: &[u8], lay: F)
    requires { F.IsAlwaysCallable lay }
{
    let mut buffer = [0u8; ROOM];
    let mut out = Page::new(&mut buffer);
    lay(&mut out);
    tell(name, out.laid());
}

fn tell_tree(name: &[u8], n: u8, in_a_path: bool)
    requires { 0 < n }
{
    tell_laid(name, |out| tree(n, in_a_path, out));
}

fn tell_pairs(name: &[u8], n: u8, pairs: &[u8])
    requires { length pairs.now ≤ 1000 }
{
    tell_laid(name, |out| listed(n, pairs, out));
}

fn tell_no_messages() {
    let mut buffer = [0u8; ROOM];
    let mut out = Page::new(&mut buffer);
    tree(2, true, &mut out);
    io::write_all(1, b"no messages: ");
    programs::tell_drained(out.laid(), b"");
}

// What Cable prints for a sheet.
fn tell_sheet(name: &[u8], sheet: &[u8]) {
    io::write_all(1, name);
    programs::say(
        &mut [0; sheeted::LONGEST_CABLE],
        |out| sheeted::cable(sheet, out),
    );
}

fn tell_sheets() {
    tell_sheet(b"an empty sheet: ", b"");
    tell_sheet(b"links 0-1 and 2-3 on a sheet: ", b"4\n0 1\n2 3\n");
    tell_sheet(b"a pair twice on a sheet: ", b"4\n0 1\n0 1\n");
    tell_sheet(b"a sheet's last line not closed: ", b"2\n0 1");
    tell_sheet(b"two spaces on a sheet: ", b"2\n0  1\n");
    tell_sheet(b"an empty line alone: ", b"\n");
    tell_sheet(b"a sheet of one node: ", b"1\n");
    tell_sheet(b"the pair (1, 0) on a sheet: ", b"2\n1 0\n");
}

pub fn tell_all() {
    tell(b"no input: ", b"");
    tell_tree(b"1 node: ", 1, true);
    tell_tree(b"65 nodes: ", 65, true);
    tell_tree(b"64 nodes in a path: ", 64, true);
    tell_laid(b"513 pairs: ", many);
    tell_pairs(b"the pair 1 0: ", 2, &[1, 0]);
    tell_pairs(b"a pair twice: ", 3, &[0, 1, 0, 1, 1, 2]);
    tell_tree(b"degree 16: ", 17, false);
    tell_tree(b"degree 17: ", 18, false);
    tell_pairs(b"links 0-1 and 2-3: ", 4, &[0, 1, 2, 3]);
    tell_no_messages();
    tell_sheets();
}
