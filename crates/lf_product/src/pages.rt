//! Pages of distances, each of 64 by 64 pairs with both values, made when a pair in it first gets a distance.
ghost use Rattle.std.specs.Prelude.{◌≡◌, ℕ, ◌*◌, ◌<◌, length, replicate, OnOk, OnErr, IfOk};
ghost use Rattle.lf_product.specs.Cells.{steps_at, put_at};
ghost use Rattle.lf_product.specs.Pages.{cell, page_of, place_of, pages_for, at_place, AreNoPages, IsWholePage};

use crate::pair::SmallPair;
use lf_core::OutOfMemory;
use std::alloc::Global;
use std::marker::Model;

/// No distance yet.
pub(crate) const NONE: u32 = u32::MAX;

/// The points of a block. A page has the pairs of two blocks.
const BLOCK: usize = 64;

/// The places of a page.
const PAGE: usize = 8_192;

/// The distances of flagged pairs. The order of a pair's points doesn't matter.
/// A page takes 32,768 bytes, and until it is made none.
#[derive(Drop)]
pub(crate) struct Pages {
    alloc: Global,
    pages: Vec<Option<Vec<u32>>>,
}

impl Model for Pages {
    ghost use Rattle.std.specs.Prelude.{List, ℕ};
    ghost use Rattle.lf_product.specs.Pages.{cells_of, AreWholePages};

    ghost Value = { List ℕ };

    ghost view = { λ p. cells_of p.pages.items };

    ghost invariant = { λ p. AreWholePages p.pages.items };
}

impl Pages {
    /// Room for the pairs of so many points, of which none has a distance.
    pub(crate) fn none(alloc: Global, points: u32) -> Result<Pages, OutOfMemory>
        ensures { IfOk result (λ distances. distances ≡ replicate (pages_for points * PAGE) NONE) }
    {
        let blocks = (points as usize).div_ceil(BLOCK);
        let pages = no_pages(alloc, blocks * (blocks + 1) / 2)?;
        Ok(Pages { alloc, pages })
    }

    /// The distance of the pair.
    pub(crate) fn get(&self, pair: SmallPair) -> u32
        requires { cell pair.left pair.right pair.differed < length self.now }
        ensures { result ≡ steps_at self.now pair.left pair.right pair.differed }
    {
        match &self.pages[page_number(pair)] {
            Some(page) => page[place(pair)],
            None => NONE,
        }
    }

    /// Gives the pair its distance.
    pub(crate) fn set(&mut self, pair: SmallPair, steps: u32) -> Result<(), OutOfMemory>
        requires { cell pair.left pair.right pair.differed < length self.old }
        ensures ok { OnOk result (self.new ≡ put_at self.old pair.left pair.right pair.differed steps) }
        ensures err { OnErr result (self.new ≡ self.old) }
    {
        write(
            self.alloc,
            &mut self.pages[page_number(pair)],
            place(pair),
            steps,
        )?;
        Ok(())
    }
}

/// The number of the pair's page: first that of the first block with itself, then those of the second with each up to itself, and so on.
fn page_number(pair: SmallPair) -> usize
    ensures { result ≡ page_of pair.left pair.right }
{
    let high = usize::from(pair.left.max(pair.right)) / BLOCK;
    let low = usize::from(pair.left.min(pair.right)) / BLOCK;
    high * (high + 1) / 2 + low
}

/// The pair's place in its page.
fn place(pair: SmallPair) -> usize
    ensures is { result ≡ place_of pair.left pair.right pair.differed }
    ensures within { result < PAGE }
{
    let high = usize::from(pair.left.max(pair.right)) % BLOCK;
    let low = usize::from(pair.left.min(pair.right)) % BLOCK;
    high * (2 * BLOCK) + 2 * low + usize::from(pair.differed)
}

/// So many pages that aren't made.
fn no_pages(alloc: Global, count: usize) -> Result<Vec<Option<Vec<u32>>>, OutOfMemory>
    ensures len { IfOk result (λ pages. length pages.items ≡ count) }
    ensures none { IfOk result (λ pages. AreNoPages pages.items) }
{
    let mut pages = Vec::new(alloc);
    for _k in 0..count {
        pages.push(None)?;
    }
    Ok(pages)
}

/// Puts the steps at the place of the page, which is made where it isn't.
fn write(
    alloc: Global,
    page: &mut Option<Vec<u32>>,
    place: usize,
    steps: u32,
) -> Result<(), OutOfMemory>
    requires within { place < PAGE }
    requires whole { IsWholePage page.old }
    ensures whole { OnOk result (IsWholePage page.new) }
    ensures put { OnOk result (at_place page.new place ≡ steps) }
    ensures kept { OnOk result ((at : ℕ) → at < PAGE → (at ≡ place → ⊥) → at_place page.new at ≡ at_place page.old at) }
    ensures err { OnErr result (page.new ≡ page.old) }
{
    if let Some(cells) = page {
        cells[place] = steps;
        return Ok(());
    }
    let mut cells = vec![in alloc; NONE; PAGE]?;
    cells[place] = steps;
    *page = Some(cells);
    Ok(())
}
