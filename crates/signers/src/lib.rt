// R3.2: sets of nodes in a 64-bit word. Bit u, of weight 2 to the power u, stands for node u.
//
// A bundle and a record keep the nodes that signed a payload as such a word. Every function is
// defined for every argument; a node number of 64 or more has no bit, so no set has it.
#![tactic(auto)]

ghost use Rattle.std.specs.Prelude.{◌≡◌};
ghost use Rattle.signers.specs.Signers.{member as is_member, insert as inserted, union as united, common as shared, size as sized, meets as is_met, below as all_below};

// Whether `node` is in `set`.
pub fn member(set: u64, node: u8) -> bool
    ensures { result ≡ is_member set node }
{
    if 64 <= node {
        return false;
    }
    (set >> node) % 2 == 1
}

// `set` with `node` in it as well. A node without a bit leaves the set as it is.
pub fn insert(set: u64, node: u8) -> u64
    ensures { result ≡ inserted set node }
{
    if 64 <= node {
        return set;
    }
    set | (1 << node)
}

// The nodes that are in `a`, in `b` or in both. A node in both counts once.
pub fn union(a: u64, b: u64) -> u64
    ensures { result ≡ united a b }
{
    a | b
}

// The nodes that are in both.
pub fn common(a: u64, b: u64) -> u64
    ensures { result ≡ shared a b }
{
    a & b
}

// How many nodes are in `set`: the ones of the word, counted (R17.9).
pub fn size(set: u64) -> u32
    ensures { result ≡ sized set }
{
    set.count_ones()
}

// Whether some node is in both sets.
pub fn meets(a: u64, b: u64) -> bool
    ensures { result ≡ is_met a b }
{
    a & b != 0
}

// The nodes below `n`. Where the compiler knows that n is 1 to 64, it leaves out both tests.
pub fn below(n: u8) -> u64
    ensures { result ≡ all_below n }
{
    if n == 0 {
        return 0;
    }
    if 64 < n {
        return u64::MAX;
    }
    u64::MAX >> (64 - n)
}
