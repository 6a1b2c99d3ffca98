// The size of chunk that an object asks for.

#![tactic(auto)]

ghost use Rattle.std.specs.Prelude.{◌≡◌, ◌^◌, ◌≤◌};
ghost use Rattle.rules.specs.Heap.{max_blocks, exponent};

// The least power of two that is n or more.
pub fn chunk_size(n: usize) -> usize
    requires { n ≤ max_blocks }
    ensures { (result ≡ 2 ^ exponent n) × (result ≤ max_blocks) }
{
    n.next_power_of_two()
}
