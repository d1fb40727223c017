// Request 8: rows rendered by a rule of widths.
#![tactic(auto)]

ghost use Rattle.std.specs.Prelude.{◌≡◌};
ghost use Rattle.rows.specs.View.{view_of};
ghost use Rattle.renderer.specs.Halts.{Resuming};
ghost use Rattle.render_by_rule.specs.Halts.{LiesFrom, HaltedBy};
ghost use Rattle.node_widths.specs.Measured.{rule_page};
ghost use Rattle.row_widths.specs.Passes.{Unturned};

use renderer::run::Renderer;
use row_widths::turn::{turn_back, turn_by};
use widths::Edition;

// The row that is read from, the row to stop before, how many rows may be entered, and the rule that texts are measured by.
#[derive(Clone, Copy, Debug, PartialEq, Eq)]
pub struct Quota {
    pub from: usize,
    pub stop: usize,
    pub allotment: usize,
    pub rule: usize,
}

// Renders rows by a rule, and says how many it entered. By an edition, `Ascii` rows are `Str` rows for the time of the run; the store is as it was
// afterwards.
pub fn run_by_rule(
    renderer: &mut Renderer<'_>,
    store: &mut [u32],
    source: &[u8],
    image: &[u8],
    quota: Quota,
) -> usize
    requires resuming { Resuming store.old quota.stop renderer.old }
    requires lies { LiesFrom store.old quota.from renderer.old }
    requires unturned { Unturned store.old quota.from quota.stop }
    ensures halted { HaltedBy (rule_page renderer.old.max.0 quota.rule source.now image.now) (view_of store.old) quota.stop quota.allotment
        renderer.old renderer.new result }
    ensures same { store.new ≡ store.old }
{
    let Some(edition) = Edition::of(quota.rule) else {
        return renderer.render(store, source, image, quota.stop, quota.allotment);
    };
    turn_by(store, source, image, quota.from, quota.stop, edition);
    let entered = renderer.render(store, source, image, quota.stop, quota.allotment);
    turn_back(store, quota.from, quota.stop);
    entered
}
