// A network of the table that the crate `worked` holds, and what is found of it: of its links image Show's lines, and for each list of messages Drain's line for
// seed 0 and the message that is looked at first; the bytes of both images, the falling rows, hops and the sheet, where the network has them.
use crate::programs::{self, ROOM};
use cabling::Cabling;
use hops::{Hop, Tables};
use laid::Page;
use refusal::Refusal;

// What hop is asked.
#[derive(Clone, Copy)]
pub struct Asked {
    pub node: u8,
    pub class: u8,
    pub destination: u8,
}

// A cabling, and what the rules give for it: the labels, T, W, the node that is labelled first, both tables of rows, hops by them, both images and the sheet, and
// messages that drain over it. What is left empty is not worked by hand.
#[derive(Clone, Copy)]
pub struct Network<'a> {
    pub cabling: Cabling<'a>,
    pub labels: &'a [u8],
    pub turns: usize,
    pub prohibited: usize,
    pub first: usize,
    pub free: &'a [u8],
    pub falling: &'a [u8],
    pub hops: &'a [Asked],
    pub links: &'a [u8],
    pub full: &'a [u8],
    pub sheet: &'a [u8],
    pub loads: &'a [&'a [u8]],
}

// A word and numbers.
fn tell_fields<N: Copy + Into<usize>>(word: &[u8], numbers: &[N]) {
    let mut buffer = [0u8; ROOM];
    let mut out = Page::new(&mut buffer);
    out.put(word);
    lines::fields(&mut out, numbers);
    io::write_all(1, out.laid());
}

// A line of them: closed too where the page has no room for all of it.
fn tell_line<N: Copy + Into<usize>>(word: &[u8], numbers: &[N]) {
    tell_fields(word, numbers);
    io::write_all(1, b"\n");
}

fn tell_image(image: &[u8], listed: &[u8]) {
    if !listed.is_empty() {
        tell_line(b"image", image);
    }
}

// The falling rows are the last bytes of the full image.
fn tell_falling(image: &[u8], listed: &[u8]) {
    if !listed.is_empty() && listed.len() <= image.len() {
        tell_line(b"falling", &image[image.len() - listed.len()..]);
    }
}

// What hop was asked, and what it answers.
fn tell_hop(asked: Asked, answer: Result<Option<Hop>, Refusal>) {
    tell_fields(b"hop", &[asked.node, asked.class, asked.destination]);
    match answer {
        Ok(Some(hop)) => tell_line(b"", &[hop.node, hop.class]),
        Ok(None) => {
            io::write_all(1, b" none\n");
        }
        Err(_) => {
            io::write_all(1, b" refused\n");
        }
    }
}

// Each hop that is listed.
fn tell_hops(image: &[u8], listed: &[Asked]) {
    let Ok(f) = image::open(image) else {
        for &asked in listed {
            tell_hop(asked, Err(Refusal::Unknown(0)));
        }
        return;
    };
    let tables = Tables {
        nodes: f.nodes,
        labels: &f.labels,
        free: &f.free,
        falling: &f.falling,
    };
    for &asked in listed {
        let answer = tables.within(
            usize::from(asked.node),
            usize::from(asked.class),
            usize::from(asked.destination),
        );
        tell_hop(asked, answer);
    }
}

fn tell_load(image: &[u8], messages: &[u8]) {
    programs::tell_drained(image, messages);
    tell_line(
        b"looks",
        &[seeds::look(seeds::next_seed(0), messages.len() / 2)],
    );
}

// An image of the network, in the buffer; nothing where it is refused.
fn laid<'b>(network: Network, full: bool, buffer: &'b mut [u8]) -> &'b [u8] {
    let size = writing::write(&network.cabling, full, buffer).unwrap_or(0);
    slices::front(buffer, size)
}

fn tell_links(network: Network, image: &[u8]) {
    programs::say_shown(image);
    tell_image(image, network.links);
    for messages in network.loads {
        tell_load(image, messages);
    }
}

fn tell_full(network: Network, image: &[u8]) {
    tell_image(image, network.full);
    tell_falling(image, network.falling);
    tell_hops(image, network.hops);
}

// The sheet of the links image.
fn tell_sheet(network: Network, image: &[u8]) {
    if network.sheet.is_empty() {
        return;
    }
    let mut out = [0u8; sheets::LONGEST];
    if let Ok(size) = sheets::sheet(image, &mut out) {
        tell_line(b"sheet", slices::front(&out, size));
    }
}

fn tell_network(network: Network) {
    let mut buffer = io::large_buffer();
    tell_links(network, laid(network, false, &mut buffer));
    tell_full(network, laid(network, true, &mut buffer));
    tell_sheet(network, laid(network, false, &mut buffer));
}

// Every network.
pub fn tell_all(networks: &[Network]) {
    for network in networks {
        tell_network(*network);
    }
}
