// Which of nine boxes go to the new node, as the bits of a mask: a heuristic, with no contract beyond safety. The
// nine are ordered along an axis by their middles and cut with three to six on either side. The least sum of the two
// half-perimeters is taken, and of equal sums an even cut: additions in ascending order then leave no node with three
// entries. Keys, places and half-perimeters are arrays of their own, each made of the one before, and no part of a box.
// Arrays are filled where they stand: one that is handed back would be copied.
ghost use Rattle.std.specs.Prelude.{◌≡◌, ◌<◌, length};
ghost use Rattle.std.specs.Iterator.{IsFinite};
ghost use Rattle.limits.specs.Limits.{max_entries, max_nodes, table_bytes};
ghost use Rattle.tree_node.specs.Node.{entries};

use crate::{MOST_PARTED, OVERFULL};
use limits::{MAX_ENTRIES, MIN_ENTRIES, TABLE_BYTES};
use tree_node::{NodeEntry, boxes, pool};

// A division of an order of boxes: how many come before the cut, and how bad it is.
#[derive(Clone, Copy)]
struct Division {
    at: usize,
    cost: u64,
}

// A number for each box, by its middle along the axis of the ends and of equal middles by its index: no two are equal,
// so that one comparison orders two boxes.
fn keys<F: Fn(NodeEntry) -> (u16, u16)>(
    nine: &[NodeEntry; OVERFULL],
    ends: F,
    out: &mut [u32; OVERFULL],
)
    requires { F.IsAlwaysCallable ends }
{
    for i in 0..OVERFULL {
        let (low, high) = ends(nine[i]);
        out[i] = 16 * (u32::from(low) + u32::from(high)) + i as u32;
    }
}

// The place in the order of the box whose key is given. A sum of choices of values: no branch foresees how boxes lie.
fn rank(keys: &[u32; OVERFULL], key: u32) -> usize {
    let mut r: usize = 0;
    for k in keys {
        r += usize::from(*k < key);
    }
    r
}

// The place of each box in the order along the axis of the ends.
fn ranks<F: Fn(NodeEntry) -> (u16, u16)>(
    nine: &[NodeEntry; OVERFULL],
    ends: F,
    places: &mut [usize; OVERFULL],
)
    requires { F.IsAlwaysCallable ends }
{
    let mut keyed: [u32; OVERFULL] = [0; OVERFULL];
    keys(nine, ends, &mut keyed);
    for i in 0..OVERFULL {
        places[i] = rank(&keyed, keyed[i]);
    }
}

// The boxes from the cut on.
fn mask_at(places: &[usize; OVERFULL], cut: usize) -> u16 {
    let mut mask: u16 = 0;
    for i in 0..OVERFULL {
        mask |= u16::from(cut <= places[i]) << i;
    }
    mask
}

// The boxes in their order.
fn sort(nine: &[NodeEntry; OVERFULL], places: &[usize; OVERFULL], out: &mut [NodeEntry; OVERFULL]) {
    for i in 0..OVERFULL {
        out[places[i].min(OVERFULL - 1)] = nine[i];
    }
}

// Half the perimeter of the first boxes together: of the first i + 1 at i.
fn halves<'a, I: Iterator<Item = &'a NodeEntry> + Drop>(order: I, out: &mut [u32; OVERFULL])
    requires can { I.can_next order }
    requires ends { IsFinite (I.remaining order) }
{
    let mut all = boxes::nowhere(0);
    for (half, e) in out.iter_mut().zip(order) {
        all = boxes::grown(*e, all);
        *half = boxes::half_perimeter(all);
    }
}

// How bad a cut is that leaves boxes with these half-perimeters on its sides: worse where it leaves three on a side.
fn cost(before: u32, after: u32, cut: usize) -> u64 {
    let uneven = cut == MIN_ENTRIES || cut == MOST_PARTED;
    2 * (u64::from(before) + u64::from(after)) + u64::from(uneven)
}

// The best cut, with three to six on either side. The half-perimeters after it are counted from the last box on.
fn best_cut(before: &[u32; OVERFULL], after: &[u32; OVERFULL]) -> Division {
    let mut best = Division {
        at: MIN_ENTRIES,
        cost: u64::MAX,
    };
    for cut in (MIN_ENTRIES..MOST_PARTED + 1).rev() {
        let cost = cost(before[cut - 1], after[OVERFULL - 1 - cut], cut);
        if cost < best.cost {
            best = Division { at: cut, cost };
        }
    }
    best
}

// The best cut of the boxes in the order of `places`.
fn order_cut(nine: &[NodeEntry; OVERFULL], places: &[usize; OVERFULL]) -> Division {
    let mut sorted: [NodeEntry; OVERFULL] = [nine[0]; OVERFULL];
    sort(nine, places, &mut sorted);
    let mut before: [u32; OVERFULL] = [0; OVERFULL];
    let mut after: [u32; OVERFULL] = [0; OVERFULL];
    halves(sorted.iter(), &mut before);
    halves(sorted.iter().rev(), &mut after);
    best_cut(&before, &after)
}

// The best cut along either axis.
fn best_mask(nine: &[NodeEntry; OVERFULL]) -> u16 {
    let mut across: [usize; OVERFULL] = [0; OVERFULL];
    let mut up: [usize; OVERFULL] = [0; OVERFULL];
    ranks(nine, |e| (e.west, e.east), &mut across);
    ranks(nine, |e| (e.south, e.north), &mut up);
    let a = order_cut(nine, &across);
    let b = order_cut(nine, &up);
    if b.cost < a.cost {
        return mask_at(&up, b.at);
    }
    mask_at(&across, a.at)
}

// A mask for the eight entries of node c, bits 0 to 7, and x, bit 8.
pub fn split_mask(table: &[u8; TABLE_BYTES], c: usize, x: NodeEntry) -> u16
    requires { (c < max_nodes) × (length (entries table.now c) ≡ max_entries) }
{
    let mut nine: [NodeEntry; OVERFULL] = [x; OVERFULL];
    for k in 0..MAX_ENTRIES {
        nine[k] = pool::entry_at(table, c, k);
    }
    best_mask(&nine)
}
