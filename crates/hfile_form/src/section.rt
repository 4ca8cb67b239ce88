//! The parts of an HFile that blocks stand in.
ghost use Rattle.std.specs.Prelude.{◌≡◌};
ghost use Rattle.hfile_form.specs.Blocks.{may_stand};

use hfile_block::Magic;

/// A part of an HFile that blocks stand in. Source: HBase Reference Guide, HFile format.
#[derive(Clone, Copy, Debug, PartialEq, Eq)]
pub enum Section {
    /// From the first byte on: data blocks, nodes of the index, meta blocks and parts of Bloom filters.
    Front,
    /// The root of the index, and the index of meta blocks.
    Roots,
    /// The file info.
    Infos,
    /// What stands between the file info and the trailer, which is passed over.
    Others,
}

impl Section {
    /// Whether a block of this kind may stand there.
    pub fn may_hold(self, magic: Magic) -> bool
        ensures { result ≡ may_stand self magic }
    {
        match (self, magic) {
            (
                Section::Front,
                Magic::Data | Magic::Leaf | Magic::Intermediate | Magic::Meta | Magic::BloomPart,
            ) => true,
            (Section::Front, _) => false,
            (Section::Roots, Magic::Root) => true,
            (Section::Roots, _) => false,
            (Section::Infos, Magic::Info) => true,
            (Section::Infos, _) => false,
            (Section::Others, _) => true,
        }
    }
}
