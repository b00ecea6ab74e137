// Which orders of a block count.
ghost use Rattle.std.specs.Prelude.{◌≡◌, ℕ, ◌≤◌, ◌<◌, get_or};
ghost use Rattle.limits.specs.Limits.{order_lines, blocks_most};
ghost use Rattle.accepted.specs.Lines.{absent_order_line};
ghost use Rattle.order_lines.specs.Orders.{keys, last_lines};
ghost use Rattle.order_links.specs.Links.{block_of, block_links};

use crate::by_block::{OrderLinks, first_line, next_line};
use limits::ORDER_LINES;
use order_lines::{MARKS, Marks, key};
use scene::OrderLine;

// Made once for a block, so that no line is compared with all others.
pub fn last_lines(
    orders: &[OrderLine; ORDER_LINES],
    links: &OrderLinks,
    count: usize,
    block: usize,
) -> Marks
    requires orders_fit { count ≤ order_lines }
    requires block_in_range { block < blocks_most }
    requires blocks_in_range { (i : ℕ) → i < count → block_of orders.now i < blocks_most }
    requires indices_in_range { (i : ℕ) → i < count → (get_or orders.now i absent_order_line).index < keys }
    requires links_by_block { links.now ≡ block_links (block_of orders.now) count }
    ensures { result ≡ last_lines orders.now count block }
{
    let mut marks = [0usize; MARKS];
    let mut i = first_line(links, block);
    while i < count {
        let at = i;
        let place = key(orders[at].kind, orders[at].index);
        i = next_line(links, at);
        marks[place] = at + 1;
    }
    marks
}
