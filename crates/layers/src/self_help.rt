// The self-help layer: the lines below, without those of venues that have been declared.
ghost use Rattle.std.specs.Prelude.{◌≡◌, count_ones};
ghost use Rattle.layers.specs.Shows.{Marked, Unmarked};

use crate::layer::Layer;
use crate::marks::Marks;
use market::types::Refusal;

pub type SelfHelp<B> = Layer<B, Marks>;

impl<B> SelfHelp<B> {
    // A layer with no mark.
    pub fn over(below: B) -> SelfHelp<B>
        ensures below { result.below ≡ below }
        ensures marks { result.screen ≡ 0 }
    {
        Layer {
            below,
            screen: Marks::none(),
        }
    }

    // Marks a venue: its lines are shown no more.
    pub fn declare(&mut self, venue: u32) -> Result<(), Refusal>
        ensures marks { Marked venue self.old.screen self.new.screen result }
        ensures below { self.new.below ≡ self.old.below }
    {
        self.screen.set(venue)
    }

    // Clears a venue's mark: its lines are shown again.
    pub fn revoke(&mut self, venue: u32) -> Result<(), Refusal>
        ensures marks { Unmarked venue self.old.screen self.new.screen result }
        ensures below { self.new.below ≡ self.old.below }
    {
        self.screen.clear(venue)
    }

    // How many marks are set.
    pub fn marks(&self) -> u32
        ensures { result ≡ count_ones self.now.screen }
    {
        self.screen.count()
    }
}
