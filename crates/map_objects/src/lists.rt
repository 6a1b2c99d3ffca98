// Lists of references: all cleared, and four of them looked at at once.
ghost use Rattle.std.specs.Prelude.{◌≡◌, ℕ, ◌+◌, ◌<◌, ◌≤◌, length, get_or, replicate};

use types::Ref;

// Every number of a list of references becomes 0.
pub fn clear_all(refs: &mut [Ref])
    ensures { refs.new ≡ replicate (length refs.old) 0 }
{
    refs.fill(0);
}

// 0 only where the four numbers from `from` on are all 0.
#[tactic(auto, using(bitmap::proofs::Digits::or_none))]
pub fn any_of_four(refs: &[Ref], from: usize) -> Ref
    requires { from + 4 ≤ length refs.now }
    ensures { result ≡ 0 → (c : ℕ) → c < 4 → get_or refs.now (from + c) 0 ≡ 0 }
{
    refs[from] | refs[from + 1] | refs[from + 2] | refs[from + 3]
}
