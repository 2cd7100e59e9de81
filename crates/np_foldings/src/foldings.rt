//! The foldings of CaseFolding.txt.
ghost use Rattle.std.specs.Prelude.{◌≡◌, ◌↔◌, ◌/◌, ℕ, [], ◌∷◌, false, get_or, length, map, option_map, slice_get, IfOk, IsTrue, MatchOption};
ghost use Rattle.np_foldings.specs.Foldings.{AreFoldings, folding_at};
ghost use Rattle.np_foldings.specs.FoldingValues.{folding_of};
ghost use Rattle.np_foldings.specs.inside.Blocks.{AreMarked, IsMarked};

use np_code_points::Memory;
use smallvec::SmallVec;
use std::alloc::Global;
use std::marker::Model;

/// How many code points a block has.
const BLOCK: usize = 16;

/// How many blocks there are.
const BLOCKS: usize = 0x1_1000;

/// What a code point folds to, where that is not the code point alone.
#[derive(Debug, PartialEq, Eq, Drop)]
pub struct Folding {
    /// The code point.
    pub code: char,
    /// What it folds to, at least one code point and at most 32.
    pub mapping: SmallVec<char, 2>,
}

/// The full case foldings of a file (The Unicode Standard, section 3.13), in the order of their code points.
#[derive(Debug, Drop)]
pub struct Foldings {
    foldings: Vec<Folding>,
    /// By block of 16 code points, 0 where none of it folds.
    blocks: Vec<u8>,
}

impl Model for Foldings {
    ghost use Rattle.std.specs.Prelude.{List, map};
    ghost use Rattle.np_foldings.specs.Foldings.{Folding, AreFoldings};

    ghost Value = { List Folding };

    ghost use Rattle.np_foldings.specs.FoldingValues.{folding_of};

    ghost view = { λ a. map folding_of a.foldings.items };

    ghost use Rattle.np_foldings.specs.inside.Blocks.{AreMarked};

    ghost invariant = { λ a. AreFoldings (map folding_of a.foldings.items) × AreMarked a.blocks.items a.foldings.items };
}

/// The block of a code point.
fn block_of(code: char) -> usize
    ensures { result ≡ code / 16 }
{
    u32::from(code) as usize / BLOCK
}

/// Marks the block of a code point.
fn mark(blocks: &mut Vec<u8>, code: char)
    ensures here { IsMarked blocks.new.items code }
    ensures others { (c : ℕ) → IsMarked blocks.old.items c → IsMarked blocks.new.items c }
{
    if let Some(block) = blocks.get_mut(block_of(code)) {
        *block = 1;
    }
}

/// The blocks in which a code point folds, marked.
fn marked_blocks(alloc: Global, foldings: &[Folding]) -> Result<Vec<u8>, Memory>
    ensures { IfOk result (λ blocks. AreMarked blocks.items foldings.now) }
{
    let mut blocks = Vec::new(alloc);
    blocks.resize(BLOCKS, 0)?;
    for at in 0..foldings.len() {
        mark(&mut blocks, foldings[at].code);
    }
    Ok(blocks)
}

/// Whether the block of a code point isn't known to have none that folds.
fn is_marked(blocks: &[u8], code: char) -> bool
    ensures { result ≡ false → get_or blocks.now (code / 16) 1 ≡ 0 }
{
    match blocks.get(block_of(code)) {
        Some(block) => *block != 0,
        None => true,
    }
}

impl Foldings {
    ghost use Rattle.np_foldings.specs.FoldingValues.{folding_of};

    /// Foldings that are in order.
    pub(crate) fn from_foldings(alloc: Global, foldings: Vec<Folding>) -> Result<Foldings, Memory>
        requires { AreFoldings (map folding_of foldings.items) }
        ensures { IfOk result (λ made. made ≡ map folding_of foldings.items) }
    {
        let blocks = marked_blocks(alloc, foldings.as_slice())?;
        Ok(Foldings { foldings, blocks })
    }

    /// Does nothing at run time: the foldings are those of a file, in their order.
    pub fn are_in_order(&self)
        ensures { AreFoldings self.now }
    {
        let _ = &self.foldings;
    }

    /// How many code points fold.
    pub fn len(&self) -> usize
        ensures { result ≡ length self.now }
    {
        self.foldings.len()
    }

    /// Whether no code point folds.
    pub fn is_empty(&self) -> bool
        ensures { IsTrue result ↔ (self.now ≡ []) }
    {
        self.foldings.is_empty()
    }

    /// The folding at a place, from 0.
    pub fn get(&self, at: usize) -> Option<&Folding>
        ensures { option_map (λ f. folding_of f.now) result ≡ slice_get self.now at }
    {
        self.foldings.get(at)
    }

    /// What a code point folds to, where that is not the code point alone. In time logarithmic in the foldings, and in constant
    /// time where no code point folds of the 16 among which it stands.
    pub fn find(&self, code: char) -> Option<&[char]>
        ensures { MatchOption result (folding_at self.now code ≡ code ∷ []) (λ mapping. folding_at self.now code ≡ mapping.now) }
    {
        if !is_marked(self.blocks.as_slice(), code) {
            return None;
        }
        let begun = self.foldings.partition_point(|f| f.code <= code);
        if begun == 0 {
            return None;
        }
        let last = &self.foldings[begun - 1];
        if last.code == code {
            Some(last.mapping.as_slice())
        } else {
            None
        }
    }
}
