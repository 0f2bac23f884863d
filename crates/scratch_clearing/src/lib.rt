// How scratch is left: cleared from the front.
#![tactic(auto)]

ghost use Rattle.std.specs.Prelude.{◌≡◌, ◌≤◌, length};
ghost use Rattle.scratch_clearing.specs.Clearing.{cleared};

// Sets the first n words to zero.
pub fn clear(s: &mut [u64], n: usize)
    requires { n ≤ length s.old }
    ensures { s.new ≡ cleared n s.old }
{
    s[..n].fill(0);
}
