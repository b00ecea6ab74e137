// The orders of a block, read at its start: they stand for kira's command readers.
ghost use Rattle.std.specs.Prelude.{◌≡◌, ◌<◌};
ghost use Rattle.limits.specs.Limits.{blocks_most};
ghost use Rattle.laws.specs.Loop.{upto};
ghost use Rattle.order_lines.specs.Orders.{last_lines};
ghost use Rattle.order_links.specs.Links.{block_of, block_links};
ghost use Rattle.mixer.specs.Orders.{order_step, resume_step, mixer_ordered};
ghost use Rattle.mixer_orders.specs.There.{OrdersThere};

use crate::order::{order_where, resume_where};
use mixer::Mixer;
use order_lines::{Marks, counts_by};
use order_links::{OrderLinks, first_line, last_lines, next_line};
use scene::Scene;

// The lines of the block are found by their links.
fn with_orders(mixer: &mut Mixer, scene: &Scene, links: &OrderLinks, block: usize, marks: &Marks)
    requires orders_there { OrdersThere scene.now }
    requires block_in_range { block < blocks_most }
    requires links_of_the_orders { links.now ≡ block_links (block_of scene.now.orders) scene.now.order_count }
    requires marks_of_last_lines { marks.now ≡ last_lines scene.now.orders scene.now.order_count block }
    ensures { mixer.new ≡ upto (order_step scene.now block) scene.now.order_count mixer.old }
{
    let count = scene.order_count;
    let mut i = first_line(links, block);
    while i < count {
        let at = i;
        let line = scene.orders[at];
        i = next_line(links, at);
        let counted = counts_by(marks, line, at);
        order_where(mixer, line, counted);
    }
}

fn with_resumes(mixer: &mut Mixer, scene: &Scene, links: &OrderLinks, block: usize, marks: &Marks)
    requires orders_there { OrdersThere scene.now }
    requires block_in_range { block < blocks_most }
    requires links_of_the_orders { links.now ≡ block_links (block_of scene.now.orders) scene.now.order_count }
    requires marks_of_last_lines { marks.now ≡ last_lines scene.now.orders scene.now.order_count block }
    ensures { mixer.new ≡ upto (resume_step scene.now block) scene.now.order_count mixer.old }
{
    let count = scene.order_count;
    let mut i = first_line(links, block);
    while i < count {
        let at = i;
        let line = scene.orders[at];
        i = next_line(links, at);
        let counted = counts_by(marks, line, at);
        resume_where(mixer, line, counted);
    }
}

// A track reads volume, routes, pause, then resume: so resumes come after all others.
pub fn on_start_processing(mixer: &mut Mixer, scene: &Scene, links: &OrderLinks, block: usize)
    requires orders_there { OrdersThere scene.now }
    requires block_in_range { block < blocks_most }
    requires links_of_the_orders { links.now ≡ block_links (block_of scene.now.orders) scene.now.order_count }
    ensures { mixer.new ≡ mixer_ordered scene.now block mixer.old }
{
    let marks = last_lines(&scene.orders, links, scene.order_count, block);
    with_orders(mixer, scene, links, block, &marks);
    with_resumes(mixer, scene, links, block, &marks);
}
