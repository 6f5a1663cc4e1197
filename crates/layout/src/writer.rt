// The writer of canonical schedule files. What is read and what is written go side by side through its functions, as in
// `write!`: a struct of both would only be taken apart in each.
ghost use Rattle.std.specs.Prelude.{◌≡◌, ◌+◌, ◌<◌, ◌≤◌, length, if◌then◌else◌, nat_lt};
ghost use Rattle.std.specs.List.{flat_map};
ghost use Rattle.layout.specs.Canonical.{word_bytes, cell_bytes, hop_bytes, cell_records, route_records, hop_records, head_bytes, canonical_length};
ghost use Rattle.layout.specs.Contents.{total_hops};
ghost use Rattle.layout.specs.Fields.{file_length};
ghost use Rattle.layout.specs.Placed.{placed, cells_start, hop_start, hops_of};
ghost use Rattle.layout.specs.RoundTrip.{ReadsBack, Written};

use crate::fields::{CellFields, HopFields};
use crate::source::Source;
use refusal::Refusal;

// How long the canonical file of a schedule is.
pub fn file_length<S: Source>(s: &S) -> usize
    ensures { result ≡ canonical_length (S.content s.now) }
{
    bytes_for(s.ports(), s.cells(), s.hops())
}

// Writes the canonical file of a schedule to the front of the output, and returns its length. An output that is too
// short is refused before anything is written. What is written reads back as itself.
pub fn write<S: Source>(s: &S, out: &mut [u8]) -> Result<usize, Refusal>
    ensures written { Written (S.content s.now) out.old result out.new }
    ensures reads_back { ReadsBack (S.content s.now) }
{
    let length = file_length(s);
    if out.len() < length {
        return Err(Refusal::ShortOutput);
    }
    put(out, 0, &head(s));
    put_ports(s, out);
    put_cells(s, out);
    put_hops(s, out);
    Ok(length)
}

// How many bytes so many ports, cells and hops take, with the head.
fn bytes_for(ports: usize, cells: usize, hops: usize) -> usize
    requires { (ports ≤ 32) × ((cells ≤ 256) × (hops ≤ 2048)) }
    ensures { result ≡ file_length ports cells hops }
{
    8 + 2 * ports + 10 * cells + 8 * hops
}

// Writes the bytes into the output, from offset `at` on.
fn put(out: &mut [u8], at: usize, bytes: &[u8])
    requires { at + length bytes.now ≤ length out.old }
    ensures { out.new ≡ placed out.old at bytes.now }
{
    out[at..at + bytes.len()].copy_from_slice(bytes);
}

// The head of a file: kind, pile, and how many ports, cells and hops follow.
fn head<S: Source>(s: &S) -> [u8; 8]
    ensures { result ≡ head_bytes (S.content s.now) }
{
    // By `as`, which is proved to lose nothing, and is shorter than a `try_from` whose error never comes.
    let [p0, p1] = (s.ports() as u16).to_be_bytes();
    let [c0, c1] = (s.cells() as u16).to_be_bytes();
    let [h0, h1] = (s.hops() as u16).to_be_bytes();
    [
        u8::from(s.kind()),
        u8::from(s.pile()),
        p0,
        p1,
        c0,
        c1,
        h0,
        h1,
    ]
}

// Writes the delays of all ports behind the 8 bytes of the head.
fn put_ports<S: Source>(s: &S, out: &mut [u8])
    requires { cells_start (S.content s.now) ≤ length out.old }
    ensures { out.new ≡ placed out.old 8 (flat_map word_bytes (S.content s.now).delays) }
{
    for p in 0..s.ports() {
        let delay = u16::from(s.delay(p));
        put(out, bytes_for(p, 0, 0), &delay.to_be_bytes());
    }
}

// Writes the records of all cells behind the ports.
fn put_cells<S: Source>(s: &S, out: &mut [u8])
    requires { hop_start (S.content s.now) 0 ≤ length out.old }
    ensures { out.new ≡ placed out.old (cells_start (S.content s.now)) (flat_map cell_bytes (cell_records 1 (S.content s.now).cells)) }
{
    let ports = s.ports();
    let mut first = 1;
    for c in 0..s.cells() {
        let cell = s.cell(c);
        put(out, bytes_for(ports, c, 0), &cell_record(cell, first));
        // By `as`, which is proved to lose nothing, as in `head`.
        first += cell.hops as u16;
    }
}

// The record of a cell whose first hop record has the index `first`.
fn cell_record(cell: CellFields, first: u16) -> [u8; 10]
    ensures { result ≡ cell_bytes (record { entry = cell.entry; flow = cell.flow; first = first; slack = cell.slack }) }
{
    let [e0, e1] = cell.entry.to_be_bytes();
    let [f0, f1] = first.to_be_bytes();
    let [s0, s1, s2, s3] = cell.slack.to_be_bytes();
    [e0, e1, cell.flow, 0, f0, f1, s0, s1, s2, s3]
}

// Writes the records of all hops behind the cells, route by route.
fn put_hops<S: Source>(s: &S, out: &mut [u8])
    requires { hop_start (S.content s.now) (total_hops (S.content s.now).cells) ≤ length out.old }
    ensures { out.new ≡ placed out.old (hop_start (S.content s.now) 0) (flat_map hop_bytes (hop_records 1 (S.content s.now).cells)) }
{
    let mut before = 0;
    for c in 0..s.cells() {
        put_route(s, c, before, out);
        before += s.cell(c).hops;
    }
}

// Writes the hop records of one cell, with `before` records of other cells before them.
fn put_route<S: Source>(s: &S, cell: usize, before: usize, out: &mut [u8])
    requires cell_bound { before + length (hops_of (S.content s.now) cell) ≤ 2048 }
    requires cell_in_bounds { hop_start (S.content s.now) (before + length (hops_of (S.content s.now) cell)) ≤ length out.old }
    ensures { out.new ≡ placed out.old (hop_start (S.content s.now) before) (flat_map hop_bytes (route_records (1 + before) (hops_of (S.content s.now) cell))) }
{
    let start = bytes_for(s.ports(), s.cells(), before);
    let hops = s.cell(cell).hops;
    for position in 0..hops {
        let next = next_index(1 + before, position, hops);
        let record = hop_record(s.hop(cell, position), next);
        put(out, start + 8 * position, &record);
    }
}

// The index of the record that follows a position of a route of so many hops whose first record has the index `first`:
// 0 at the last position.
fn next_index(first: usize, position: usize, hops: usize) -> u16
    requires { (first + hops ≤ 2049) × (position < hops) }
    ensures { result ≡ (if nat_lt (position + 1) hops then first + position + 1 else 0) }
{
    if position + 1 < hops {
        // By `as`, which is proved to lose nothing, as in `head`.
        (first + position + 1) as u16
    } else {
        0
    }
}

// The record of a hop that the record with the index `next` follows, or none where that is 0.
fn hop_record(hop: HopFields, next: u16) -> [u8; 8]
    ensures { result ≡ hop_bytes (record { next = next; port = hop.port; sent = hop.sent }) }
{
    let [n0, n1] = next.to_be_bytes();
    let [s0, s1, s2, s3] = hop.sent.to_be_bytes();
    [n0, n1, hop.port, 0, s0, s1, s2, s3]
}
