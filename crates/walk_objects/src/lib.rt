// The walk of requests U11 and U13: objects as first met, breadth first, in lent arrays with a place for each block. `order` has their
// references in the order of their numbers, `numbers` at place b the number of the object at block b, or 0;
// `owners` has at place n - 1 the number of the object in whose cell object n was first met, 0 for a root, and
// `vias` that cell or root. They hold 0 for none, as cells do: an `Option` would make them twice as large.

#![tactic(auto)]

ghost use Rattle.std.specs.Prelude.{◌≡◌, ℕ, ◌*◌, ◌≤◌, ◌<◌, [], length, get_or, take};
ghost use Rattle.rules.specs.Heap.{max_blocks};
ghost use Rattle.rules_output.specs.Walk.{followed};
ghost use Rattle.theory_walks.specs.Trail.{meet_at, meet_each_at, trail, links_to};
ghost use Rattle.walk_objects.specs.Walking.{walked_heap, entries, Walkable, Tracing, Traced};

use types::Ref;

// The walk as far as it has come. The clauses `same_..` of its methods say that its arrays stay those that were
// lent.
#[derive(Drop)]
struct Trail<'a> {
    order: &'a mut [Ref],
    numbers: &'a mut [Ref],
    owners: &'a mut [Ref],
    vias: &'a mut [Ref],
    met: usize,
}

impl Trail<'_> {
    // Meets what v names, if anything, in that cell of that owner.
    #[tactic(auto, using(crate::proofs::Tracing::room))]
    fn meet_at(&mut self, blocks: usize, owner: usize, cell: usize, v: Ref)
        requires { Tracing blocks self.old.order.now self.old.numbers.now self.old.owners.now self.old.vias.now self.old.met × (v ≤ blocks) × (owner ≤ blocks) × (cell < 4 * max_blocks) }
        ensures same_order { self.new.order.ghost_name ≡ self.old.order.ghost_name }
        ensures same_numbers { self.new.numbers.ghost_name ≡ self.old.numbers.ghost_name }
        ensures same_owners { self.new.owners.ghost_name ≡ self.old.owners.ghost_name }
        ensures same_vias { self.new.vias.ghost_name ≡ self.old.vias.ghost_name }
        ensures traced { Traced blocks (meet_at (entries self.old.order.now self.old.owners.now self.old.vias.now self.old.met) owner cell v)
            self.new.order.now self.new.numbers.now self.new.owners.now self.new.vias.now self.new.met }
    {
        if v == 0 || self.numbers[v as usize - 1] != 0 {
            return;
        }
        self.order[self.met] = v;
        self.numbers[v as usize - 1] = (self.met + 1) as Ref;
        self.owners[self.met] = owner as Ref;
        self.vias[self.met] = cell as Ref;
        self.met += 1;
    }

    // Meets what the references name, in their order: the cells, or the roots, of an owner.
    fn meet_each_at(&mut self, blocks: usize, refs: &[Ref], owner: usize)
        requires { Tracing blocks self.old.order.now self.old.numbers.now self.old.owners.now self.old.vias.now self.old.met × (length refs.now ≤ 4 * max_blocks)
            × (owner ≤ blocks) × ((i : ℕ) → i < length refs.now → get_or refs.now i 0 ≤ blocks) }
        ensures same_order { self.new.order.ghost_name ≡ self.old.order.ghost_name }
        ensures same_numbers { self.new.numbers.ghost_name ≡ self.old.numbers.ghost_name }
        ensures same_owners { self.new.owners.ghost_name ≡ self.old.owners.ghost_name }
        ensures same_vias { self.new.vias.ghost_name ≡ self.old.vias.ghost_name }
        ensures traced { Traced blocks (meet_each_at (entries self.old.order.now self.old.owners.now self.old.vias.now self.old.met) owner 0 refs.now)
            self.new.order.now self.new.numbers.now self.new.owners.now self.new.vias.now self.new.met }
    {
        for (cell, &v) in refs.iter().enumerate() {
            self.meet_at(blocks, owner, cell, v);
        }
    }
}

// Numbers all objects that the roots lead to, and notes where each was first met. How many they are.
pub fn trace_all(
    blocks: usize,
    a: &[u8],
    b: &[u8],
    d: &[u8],
    cells: &[Ref],
    roots: &[Ref],
    order: &mut [Ref],
    numbers: &mut [Ref],
    owners: &mut [Ref],
    vias: &mut [Ref],
) -> usize
    requires { Walkable blocks a.now b.now d.now cells.now roots.now
        × Tracing blocks order.old numbers.old owners.old vias.old 0 }
    ensures { Traced blocks (trail roots.now
        (followed blocks (walked_heap a.now b.now d.now cells.now roots.now)) blocks)
        order.new numbers.new owners.new vias.new result }
{
    let mut walk = Trail {
        order,
        numbers,
        owners,
        vias,
        met: 0,
    };
    walk.meet_each_at(blocks, roots, 0);
    let mut k = 0;
    // A `while`: what is met in its turns is taken in later ones.
    while k < walk.met {
        let at = walk.order[k] as usize - 1;
        let size = map_objects::objects::object_size(blocks, b, at);
        let n = map_objects::objects::naming_cells(d, at, size);
        let named = &cells[4 * at..4 * at + n];
        k += 1;
        walk.meet_each_at(blocks, named, k);
    }
    walk.met
}

// Writes the links by which object n was first met, the last one first and the root last. How many they are.
pub fn links_to(owners: &[Ref], vias: &[Ref], links: &mut [Ref], n: usize) -> usize
    requires { (n ≤ max_blocks) × (n ≤ length owners.now) × (n ≤ length vias.now) × (n ≤ length links.old)
        × ((i : ℕ) → i < n → get_or owners.now i 0 ≤ i) }
    ensures { (take result links.new ≡ links_to (entries [] owners.now vias.now n) n) × (result ≤ n) }
{
    let mut object = n;
    let mut count = 0;
    // A `while`: it goes back from an object to the owner of the cell where it was met.
    while object != 0 {
        links[count] = vias[object - 1];
        count += 1;
        object = owners[object - 1] as usize;
    }
    count
}
