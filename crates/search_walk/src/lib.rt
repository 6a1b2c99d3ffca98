// The walk up the A-map that searches a free chunk: a chunk is judged from the length of the free stretch where it ends. Its laws are in
// proofs/.

#![tactic(auto)]

ghost use Rattle.std.specs.Prelude.{◌≡◌, ℕ, ◌^◌};
ghost use Rattle.search_walk.specs.Search.{judged_free};

// Whether a chunk of `size` blocks ends before block `end` and is free: `stretch` is the length of the free stretch that ends there.
pub fn is_judged_free(end: usize, size: usize, stretch: usize) -> bool
    requires { (k : ℕ) × (size ≡ 2 ^ k) }
    ensures { result ≡ judged_free end size stretch }
{
    size <= stretch && end & (size - 1) == 0
}
