// The foreman's page (02, C-16 and C-18): the linked nodes as lines, put into a buffer sheet by sheet.
#![tactic(auto)]

ghost use Rattle.std.specs.Prelude.{◌≡◌, [], ◌∷◌, map, ◌<◌, ◌≤◌, ◌+◌, ◌*◌, length};
ghost use Rattle.spec.specs.Numbers.{pool_limit};
ghost use Rattle.texts.specs.Decimal.{decimal};
ghost use Rattle.texts.specs.Put.{Put};
ghost use Rattle.page_order.specs.Ranks.{node_of};
ghost use Rattle.page_order.specs.Laws.{last_or};
ghost use Rattle.page.specs.Page.{colour_letter, page_line, page};
ghost use Rattle.page.specs.Sheets.{ticket_bytes, link_bytes, line_bytes, ticket_columns, link_columns, sheet_feed, sheet_head, lines_of, sheets, most_sheets, sheet_after, last_after};

// node lines of a sheet, the bytes of a line, and room enough for any sheet
const SHEET_LINES: usize = 60;

const LINE_BYTES: usize = 54;

pub const SHEET_ROOM: usize = 1 + LINE_BYTES + SHEET_LINES * LINE_BYTES;

// the most sheets, and room enough for any page
const MOST_SHEETS: usize = 18;

pub const PAGE_ROOM: usize = MOST_SHEETS * SHEET_ROOM;

const FORM_FEED: u8 = 12;

// the widths of the columns, and of the gap between two
const GAP: usize = 2;

const NODE_WIDTH: usize = 4;

const KEY_WIDTH: usize = 10;

const RECORD_WIDTH: usize = 20;

const LINK_WIDTH: usize = 4;

fn colour_letter(pool: &[u32], n: u32) -> u8
    ensures { result ≡ colour_letter pool.now n }
{
    if pool::is_red(pool, n) { b'R' } else { b'B' }
}

// Each writer below puts its text into out from position at on and answers the next position, as those of texts do.
// kept: a buffer with a position beside it, since README names put_page and put_sheet in this form.

// the columns of node, key and record
#[tactic(auto, using(texts::proofs::Fields::fields), unfolding(crate::specs::Sheets::ticket_columns, crate::specs::Page::column))]
fn put_ticket(out: &mut [u8], at: usize, n: u32, k: u32, v: u64) -> usize
    requires { at + ticket_bytes ≤ length out.old }
    ensures put { Put out.old at (ticket_columns (decimal n) (decimal k) (decimal v)) out.new result }
    ensures value { result ≡ at + ticket_bytes }
{
    let second = texts::put_right(out, at, 0, NODE_WIDTH, n as u64);
    let third = texts::put_right(out, second, GAP, KEY_WIDTH, k as u64);
    texts::put_right(out, third, GAP, RECORD_WIDTH, v)
}

// the columns of colour, left and right, and the newline
#[tactic(auto, using(texts::proofs::Fields::fields), unfolding(crate::specs::Sheets::link_columns, crate::specs::Page::column, texts::specs::Column::right_in))]
fn put_links(out: &mut [u8], at: usize, colour: u8, left: u32, right: u32) -> usize
    requires { at + link_bytes ≤ length out.old }
    ensures { Put out.old at (link_columns (colour ∷ []) (decimal left) (decimal right)) out.new result }
{
    let fifth = texts::text_field(out, at, b"  ", colour);
    let sixth = texts::put_right(out, fifth, GAP, LINK_WIDTH, left as u64);
    let end = texts::put_right(out, sixth, GAP, LINK_WIDTH, right as u64);
    texts::put_byte(out, end, texts::NEWLINE)
}

// node n's line
fn put_line(out: &mut [u8], at: usize, pool: &[u32], n: u32) -> usize
    requires { at + line_bytes ≤ length out.old }
    ensures { Put out.old at (page_line pool.now n) out.new result }
{
    let key = pool::word(pool, n, pool::KEY);
    let record = pool::record(pool, n);
    let colour = colour_letter(pool, n);
    let left = pool::word(pool, n, pool::LEFT);
    let right = pool::word(pool, n, pool::RIGHT);
    let fourth = put_ticket(out, at, n, key, record);
    put_links(out, fourth, colour, left, right)
}

// the lines of these ranks' nodes
fn put_lines(out: &mut [u8], at: usize, pool: &[u32], ranks: &[u64]) -> usize
    requires { at + length ranks.now * line_bytes ≤ length out.old }
    ensures { Put out.old at (lines_of pool.now (map node_of ranks.now)) out.new result }
{
    let mut next = at;
    for rank in ranks {
        next = put_line(out, next, pool, page_order::node_of(*rank));
    }
    next
}

// the form feed, on a page's first sheet nothing
#[tactic(auto, using(crate::proofs::Parts::nothing), unfolding(crate::specs::Sheets::sheet_feed))]
fn put_feed(out: &mut [u8], at: usize, last: u64) -> usize
    requires { at < length out.old }
    ensures { Put out.old at (sheet_feed last) out.new result }
{
    if last == 0 {
        return at;
    }
    texts::put_byte(out, at, FORM_FEED)
}

#[tactic(auto, using(crate::proofs::Parts::head), unfolding(crate::specs::Sheets::sheet_head, crate::specs::Page::head_line, crate::specs::Page::columns, crate::specs::Page::column, texts::specs::Column::right_in))]
fn put_head(out: &mut [u8], at: usize, last: u64) -> usize
    requires { at + length (sheet_head last) ≤ length out.old }
    ensures { Put out.old at (sheet_head last) out.new result }
{
    let next = put_feed(out, at, last);
    texts::text_field(
        out,
        next,
        b"node         key                record  c  left  righ",
        texts::NEWLINE,
    )
}

// the last of these ranks; of none, the one given
#[tactic(auto, using(crate::proofs::Parts::last_rank))]
fn last_rank(ranks: &[u64], last: u64) -> u64
    ensures { result ≡ last_or last ranks.now }
{
    ranks.last().copied().unwrap_or(last)
}

// A sheet put into a buffer: the position after it, and the rank of its last line.
#[derive(Clone, Copy)]
pub struct Sheet {
    pub next: usize,
    pub last: u64,
}

// Puts the page's sheet after the line of rank `last`, or its first sheet if that is 0. The ranks of its lines, 60 at most, are found by one walk
// over the pool's nodes: there is no buffer of all nodes. By theorem page-sheets (specs, Sheets) the sheets put together are the page.
#[tactic(auto, using(crate::proofs::Parts::sheet), unfolding(crate::specs::Sheets::sheet_after, crate::specs::Sheets::last_after))]
pub fn put_sheet(out: &mut [u8], at: usize, pool: &[u32], last: u64) -> Sheet
    requires { (length pool.now ≤ pool_limit) × (at + length (sheet_after pool.now last) ≤ length out.old) }
    ensures put { Put out.old at (sheet_after pool.now last) out.new result.next }
    ensures last_value { result.last ≡ last_after pool.now last }
{
    let mut ranks = [0u64; SHEET_LINES];
    let count = page_order::next_ranks(pool, last, &mut ranks);
    let start = put_head(out, at, last);
    let next = put_lines(out, start, pool, &ranks[..count]);
    let end = last_rank(&ranks[..count], last);
    Sheet { next, last: end }
}

// Answers how many sheets the page has: at least one, which for an empty index has the head alone.
#[tactic(auto, using(crate::proofs::Parts::count), unfolding(crate::specs::Sheets::sheets))]
pub fn sheets(pool: &[u32]) -> usize
    requires { length pool.now ≤ pool_limit }
    ensures value { result ≡ sheets pool.now }
    ensures upper_bound { result ≤ most_sheets }
{
    page_order::lines(pool).saturating_sub(1) / SHEET_LINES + 1
}

// Puts the whole page.
pub fn put_page(out: &mut [u8], at: usize, pool: &[u32]) -> usize
    requires { (length pool.now ≤ pool_limit) × (at + length (page pool.now) ≤ length out.old) }
    ensures { Put out.old at (page pool.now) out.new result }
{
    let mut next = at;
    let mut last: u64 = 0;
    for _sheet in 0..sheets(pool) {
        let sheet = put_sheet(out, next, pool, last);
        next = sheet.next;
        last = sheet.last;
    }
    next
}
