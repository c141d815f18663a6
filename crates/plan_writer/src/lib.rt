// A program that is held in arrays, written as a packed plan in the one way (document 02, E5).
#![tactic(auto)]

ghost use Rattle.std.specs.Prelude.{◌+◌, ◌*◌, ◌≤◌, ◌<◌, ◌≡◌, ◌++◌, length};
ghost use Rattle.std.proofs.lemmas.List.Edits.{sets};
ghost use Rattle.format.specs.Area.{overwrite};
ghost use Rattle.plan_written.specs.Written.{bytes_of, written};
ghost use Rattle.plan_writer.specs.Inner.Held.{held_program, Writable};

use plan_packing::put_bytes;

// The header and the mask.
fn put_header(area: &mut [u8], version: usize, mask: usize, procedures: usize, terms: usize)
    requires in_bounds { 8 ≤ length area.old }
    requires version_bound { (version ≤ 1) × (procedures ≤ 32) × (terms ≤ 1024) }
    ensures { area.new ≡ sets area.old 0 (bytes_of 4 (((version * 64 + procedures) * 4096 + terms) * 1024) ++ bytes_of 4 mask) }
{
    put_bytes::<4>(area, 0, ((version * 64 + procedures) * 4096 + terms) * 1024);
    put_bytes::<4>(area, 4, mask);
}

// The two bytes of a procedure.
pub fn put_procedure(area: &mut [u8], at: usize, parameters: usize, root: usize)
    requires at_in_bounds { at + 2 ≤ length area.old }
    requires parameters_bound { (parameters < 16) × (root < 4096) }
    ensures { area.new ≡ sets area.old at (bytes_of 2 (parameters * 4096 + root)) }
{
    put_bytes::<2>(area, at, parameters * 4096 + root)
}

// The program of this version and mask, and of so many procedures and terms: its header, its procedures in their order, each with the number of its root, and
// all their terms.
pub fn write(
    version: usize,
    mask: usize,
    procedures: usize,
    terms: usize,
    words: &[usize],
    roots: &[usize; 32],
    counts: &[usize; 32],
    area: &mut [u8],
)
    requires { Writable version mask procedures terms words.now roots.now counts.now area.old }
    ensures { area.new
        ≡ overwrite (written (held_program version mask procedures words.now roots.now counts.now)) area.old }
{
    put_header(area, version, mask, procedures, terms);
    let base = 8 + 2 * procedures;
    let mut number = 0;
    for procedure in 0..procedures {
        let parameters = counts[procedure];
        let root = roots[procedure];
        put_procedure(area, 8 + 2 * procedure, parameters, number);
        number = plan_tree_writer::write_expression(words, root, area, base, number);
    }
}
