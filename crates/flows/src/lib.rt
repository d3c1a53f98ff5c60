//! A list of flows: how many it has, and the numbers of each, by one stride.
#![tactic(auto)]

ghost use Rattle.std.specs.Prelude.{◌≡◌, [], ◌∷◌, ◌*◌, ◌<◌, ◌≤◌, length};
ghost use Rattle.std.proofs.lemmas.List.Edits.{sets};
ghost use Rattle.rules.specs.Flows.{stride, flows, number_of};

// The numbers of a flow: its input, its output, its cells, its link.
pub const STRIDE: usize = 4;

// The numbers of the longest list, of 512 flows.
pub const LIST_MOST: usize = 512 * STRIDE;

// How many flows a list has.
pub fn flows_of(list: &[u16]) -> usize
    ensures { result ≡ flows list.now }
{
    list.len() / STRIDE
}

// The numbers of a flow, as they stand in a list.
#[derive(Clone, Copy, Debug, PartialEq, Eq)]
pub struct Numbers {
    pub input: u16,
    pub output: u16,
    pub cells: u16,
    pub link: u16,
}

// The numbers of flow f, from 0.
pub fn numbers_of(list: &[u16], f: usize) -> Numbers
    requires { f < flows list.now }
    ensures input { result.input ≡ number_of 0 list.now f }
    ensures output { result.output ≡ number_of 1 list.now f }
    ensures cells { result.cells ≡ number_of 2 list.now f }
    ensures link { result.link ≡ number_of 3 list.now f }
{
    let at = f * STRIDE;
    Numbers {
        input: list[at],
        output: list[at + 1],
        cells: list[at + 2],
        link: list[at + 3],
    }
}

// Puts a flow behind so many others, on link 1. A list with room, and no `Vec`: nothing here takes memory.
pub fn put_flow(
    list: &mut [u16; LIST_MOST],
    flows: usize,
    input: usize,
    output: usize,
    cells: usize,
)
    requires { (length list.old ≡ 2048) × (flows < 512) × (input ≤ 65535) × (output ≤ 65535) × (cells ≤ 65535) }
    ensures { list.new ≡ sets list.old (flows * stride) (input ∷ output ∷ cells ∷ 1 ∷ []) }
{
    let at = flows * STRIDE;
    // By `as`: `try_from` would have a case that does not come.
    list[at] = input as u16;
    list[at + 1] = output as u16;
    list[at + 2] = cells as u16;
    list[at + 3] = 1;
}
