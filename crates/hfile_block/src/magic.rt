//! The kinds of block.
ghost use Rattle.std.specs.Prelude.{◌≡◌, nat_eq};
ghost use Rattle.std.specs.Cmp.Lexicographic.{pointwise};
ghost use Rattle.hfile_block.specs.Header.{magic_bytes, magic_of};

/// The kind of a block, which its first eight bytes tell. Source: HBase `BlockType`.
#[derive(Clone, Copy, Debug, PartialEq, Eq)]
pub enum Magic {
    Data,
    Leaf,
    Intermediate,
    Root,
    Meta,
    Info,
    BloomPart,
    BloomMeta,
    DeleteBloomMeta,
    Trailer,
}

impl Magic {
    /// The first eight bytes of a block of this kind.
    #[tactic(auto, unfolding(crate::specs::Header::magic_bytes))]
    pub fn bytes(self) -> [u8; 8]
        ensures { result ≡ magic_bytes self }
    {
        match self {
            Magic::Data => *b"DATABLK*",
            Magic::Leaf => *b"IDXLEAF2",
            Magic::Intermediate => *b"IDXINTE2",
            Magic::Root => *b"IDXROOT2",
            Magic::Meta => *b"METABLKc",
            Magic::Info => *b"FILEINF2",
            Magic::BloomPart => *b"BLMFBLK2",
            Magic::BloomMeta => *b"BLMFMET2",
            Magic::DeleteBloomMeta => *b"DFBLMET2",
            Magic::Trailer => *b"TRABLK\"$",
        }
    }

    /// The kind whose bytes these are.
    #[tactic(auto, unfolding(crate::specs::Header::magic_of))]
    pub fn of(front: &[u8]) -> Option<Magic>
        ensures { result ≡ magic_of front.now }
    {
        if is_of(front, Magic::Data) {
            Some(Magic::Data)
        } else if is_of(front, Magic::Leaf) {
            Some(Magic::Leaf)
        } else if is_of(front, Magic::Intermediate) {
            Some(Magic::Intermediate)
        } else if is_of(front, Magic::Root) {
            Some(Magic::Root)
        } else if is_of(front, Magic::Meta) {
            Some(Magic::Meta)
        } else if is_of(front, Magic::Info) {
            Some(Magic::Info)
        } else if is_of(front, Magic::BloomPart) {
            Some(Magic::BloomPart)
        } else if is_of(front, Magic::BloomMeta) {
            Some(Magic::BloomMeta)
        } else if is_of(front, Magic::DeleteBloomMeta) {
            Some(Magic::DeleteBloomMeta)
        } else if is_of(front, Magic::Trailer) {
            Some(Magic::Trailer)
        } else {
            None
        }
    }
}

/// Whether the bytes are those of a kind.
fn is_of(front: &[u8], magic: Magic) -> bool
    ensures { result ≡ pointwise nat_eq front.now (magic_bytes magic) }
{
    front == magic.bytes().as_slice()
}
