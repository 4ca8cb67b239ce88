//! What tells names apart.

ghost use Rattle.hb_grammar.specs.Marked.{Avoids};
ghost use Rattle.hb_file_names.specs.declared.file_parts.FileParts.{FileParts};
ghost use Rattle.hb_file_names.specs.FileName.{IsFileName};
ghost use Rattle.hb_file_names.specs.NameLaws.{HasDigitsFirst, LinksAreTold, ReferencesAreTold, BackReferencesAreTold, HalvesAreNoLinks};

/// A file name has neither `=` nor `.`, and begins with the 32 digits that it was drawn with. Links,
/// references and back references are told by their names, and a reference to a half of a region's own
/// file is named as no link is.
pub fn names_told()
    ensures no_equals { Avoids IsFileName 61 }
    ensures no_dot { Avoids IsFileName 46 }
    ensures digits { (parts : FileParts) → HasDigitsFirst parts }
    ensures links { LinksAreTold }
    ensures references { ReferencesAreTold }
    ensures backs { BackReferencesAreTold }
    ensures apart { HalvesAreNoLinks }
{}
