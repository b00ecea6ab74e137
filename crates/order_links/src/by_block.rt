// The links of the orders.
ghost use Rattle.std.specs.Prelude.{◌≡◌, ℕ, ◌≤◌, ◌<◌};
ghost use Rattle.limits.specs.Limits.{order_lines, blocks_most};
ghost use Rattle.order_links.specs.Links.{block_of, block_links, first_line, next_line};

use limits::ORDER_LINES;
use scene::OrderLine;

// Blocks of a show.
const BLOCKS: usize = 1024;

// Of each block the first line, then of each line the next of its block. ORDER_LINES is none.
pub type OrderLinks = [usize; BLOCKS + ORDER_LINES];

pub fn links_by_block(orders: &[OrderLine; ORDER_LINES], count: usize) -> OrderLinks
    requires orders_fit { count ≤ order_lines }
    requires blocks_in_range { (i : ℕ) → i < count → block_of orders.now i < blocks_most }
    ensures { result ≡ block_links (block_of orders.now) count }
{
    let mut links = [ORDER_LINES; BLOCKS + ORDER_LINES];
    for i in (0..count).rev() {
        let block = orders[i].block;
        links[BLOCKS + i] = links[block];
        links[block] = i;
    }
    links
}

pub fn first_line(links: &OrderLinks, block: usize) -> usize
    requires { block < blocks_most }
    ensures { result ≡ first_line links.now block }
{
    links[block]
}

pub fn next_line(links: &OrderLinks, i: usize) -> usize
    requires { i < order_lines }
    ensures { result ≡ next_line links.now i }
{
    links[BLOCKS + i]
}
