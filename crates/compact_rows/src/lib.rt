// A controller's table copied from one layout to the other. `rows` is how many pairs of an output and a counter there are: one row number for each.
#![tactic(auto)]

ghost use Rattle.std.specs.Prelude.{◌+◌, ◌≤◌, length, ◌≡◌};
ghost use Rattle.compact_rows.specs.Copying.{Started, GatherFits, Gathered, FullFits, GatheredRows, FullFilled};
ghost use Rattle.compact_rows.specs.Copying.{RepresentFits, Represented, PickFits, Picked, PickRowsFits, PickedRows, CompactFits, CompactFilled};

// The starts are the same in both layouts. Another table that begins with the starts of this one gets them here too.
pub fn starts(inputs: usize, table: &[u16], room: &mut [u16])
    requires { (inputs ≤ length table.now) × (inputs ≤ length room.old) }
    ensures { Started table.now inputs inputs room.old room.new }
{
    for i in 0..inputs {
        room[i] = table[i];
    }
}

// One row number of the full layout, at the places from `at` on: each input's entry is that of its rank, the entries by rank beginning at `from`.
fn gather(table: &[u16], inputs: usize, from: usize, room: &mut [u16], at: usize)
    requires { GatherFits table.now inputs from at (length room.old) }
    ensures { Gathered table.now inputs from at inputs room.old room.new }
{
    for j in 0..inputs {
        let c = usize::from(table[inputs + j]);
        room[at + j] = table[from + c];
    }
}

// All row numbers of the full layout.
fn gather_rows(table: &[u16], inputs: usize, components: usize, rows: usize, room: &mut [u16])
    requires { FullFits table.now inputs components rows (length room.old) }
    ensures { GatheredRows table.now inputs components rows rows room.old room.new }
{
    for x in 0..rows {
        gather(
            table,
            inputs,
            inputs + inputs + x * components,
            room,
            inputs + x * inputs,
        );
    }
}

// The front of room becomes the table of the compact layout in the full one; the rest stays.
pub fn fill_full(table: &[u16], inputs: usize, components: usize, rows: usize, room: &mut [u16])
    requires { FullFits table.now inputs components rows (length room.old) }
    ensures { FullFilled table.now inputs components rows room.old room.new }
{
    starts(inputs, table, room);
    gather_rows(table, inputs, components, rows, room);
}

// Puts one input of each rank, from `at` on, at its rank: the one that is read for it, whichever it is, as inputs of one rank have the same entries. The
// ranks are in the room.
fn represent(inputs: usize, components: usize, room: &mut [u16], at: usize)
    requires { RepresentFits inputs components room.old at }
    ensures { Represented inputs components at inputs room.old room.new }
{
    for j in 0..inputs {
        let c = usize::from(room[inputs + j]);
        room[at + c] = j as u16;
    }
}

// One row number of the compact layout, its entries by rank beginning at `cells`, each read for the input that stands for its rank, from `at` on.
fn pick(table: &[u16], from: usize, components: usize, room: &mut [u16], at: usize, cells: usize)
    requires { PickFits table.now from components room.old at cells }
    ensures { Picked table.now from at cells components room.old room.new }
{
    for c in 0..components {
        let j = usize::from(room[at + c]);
        room[cells + c] = table[from + j];
    }
}

// All row numbers of the compact layout, the first last: the inputs that stand for the ranks are in its place.
fn pick_rows(table: &[u16], inputs: usize, components: usize, rows: usize, room: &mut [u16])
    requires { PickRowsFits table.now inputs components rows room.old }
    ensures { PickedRows table.now inputs components rows 0 room.old room.new }
{
    let mut x = rows;
    while 0 < x {
        x -= 1;
        pick(
            table,
            inputs + x * inputs,
            components,
            room,
            inputs + inputs,
            inputs + inputs + x * components,
        );
    }
}

// The front of room, which has the ranks in their place, becomes the table of the full layout in the compact one; the rest stays.
pub fn fill_compact(table: &[u16], inputs: usize, components: usize, rows: usize, room: &mut [u16])
    requires { CompactFits table.now inputs components rows room.old }
    ensures { CompactFilled table.now inputs components rows room.old room.new }
{
    starts(inputs, table, room);
    represent(inputs, components, room, inputs + inputs);
    pick_rows(table, inputs, components, rows, room);
}
