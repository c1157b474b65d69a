//! Which configurations fit a space budget.
ghost use Rattle.std.specs.Prelude.{◌≡◌, ◌*◌, ◌≤◌, ◌↔◌, IsTrue, All, if◌then◌else◌, length};
ghost use Rattle.adv_base.specs.Configs as configs;
ghost use Rattle.adv_base.specs.Named.{NamesShape};
ghost use Rattle.adv_base.specs.Sizes as size;
ghost use Rattle.adv_base.specs.declared.limits.TheConstants.{MOST_CANDIDATES, MOST_INDEX_PAGES};

use crate::size::pages;
use adv_base::limits::MOST_CANDIDATES;
use adv_base::{Catalogue, Config, IndexShape, is_apart};

/// The pages of a configuration's candidates, of which there are at most 256. It takes no memory.
pub fn config_pages(cat: &Catalogue, shapes: &[IndexShape], config: &Config) -> u64
    requires { All (NamesShape cat.now) shapes.now }
    ensures exact { result ≡ configs.config_pages cat.now shapes.now config.now }
    ensures most { result ≤ MOST_CANDIDATES * MOST_INDEX_PAGES }
{
    let mut sum = 0;
    for (i, shape) in shapes.iter().enumerate() {
        if i >= MOST_CANDIDATES {
            return sum;
        }
        sum += pages_if(cat, shape, config.on[i]);
    }
    sum
}

/// The pages of a shape that is chosen, and else 0.
fn pages_if(cat: &Catalogue, shape: &IndexShape, chosen: bool) -> u64
    requires { NamesShape cat.now shape.now }
    ensures exact { result ≡ (if chosen then size.shape_pages cat.now shape.now else 0) }
    ensures most { result ≤ MOST_INDEX_PAGES }
{
    if chosen { pages(cat, shape) } else { 0 }
}

/// Whether the candidates of a configuration together take at most a budget of pages, the room that an administrator gives
/// (CoPhy's budget row), and no two of them are clustered on one table.
pub fn fits(cat: &Catalogue, shapes: &[IndexShape], config: &Config, budget: u64) -> bool
    requires { All (NamesShape cat.now) shapes.now }
    ensures { IsTrue result ↔ configs.Fits cat.now shapes.now config.now budget }
{
    config_pages(cat, shapes, config) <= budget && is_apart(shapes, config)
}
