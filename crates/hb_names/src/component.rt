//! The grammar of a component of a place.

ghost use Rattle.std.specs.Prelude.{◌≡◌, ◌≤◌, true};
ghost use Rattle.hb_grammar.specs.Grammar.{Same};
ghost use Rattle.hb_names.specs.Component.{IsComponent};
ghost use Rattle.hb_names.specs.ComponentGrammar.{ComponentAfter};
ghost use Rattle.hb_names.specs.declared.component.TheConstants.{MAX_COMPONENT};

use hb_grammar::{Class, Grammar};

/// The greatest length of a component.
pub const MAX_COMPONENT: usize = 255;

/// 1 to 255 letters, digits and `_ - . =`, but neither `.` nor `..`.
#[derive(Clone, Copy)]
pub struct ComponentGrammar {
    read: usize,
    dots: bool,
    ghost within: { read ≤ MAX_COMPONENT },
}

impl ComponentGrammar {
    /// The grammar of a component, before its first byte.
    pub fn new() -> ComponentGrammar
        ensures { Same (⟦<ComponentGrammar as Grammar>⟧.spells result) IsComponent }
    {
        ComponentGrammar {
            read: 0,
            dots: true,
        }
    }
}

impl Grammar for ComponentGrammar {
    ghost use Rattle.hb_names.specs.ComponentLaws.{IsLive-ComponentAfter};

    ghost spells = { λ component. ComponentAfter component.read component.dots };

    ghost completes = { λ component. IsLive-ComponentAfter component.read component.dots component.within };

    fn step(self, byte: u8) -> Option<ComponentGrammar> {
        if self.read == MAX_COMPONENT {
            return None;
        }
        if !Class::Component.has(byte) {
            return None;
        }
        if byte == b'.' {
            Some(ComponentGrammar {
                read: self.read + 1,
                dots: self.dots,
            })
        } else {
            Some(ComponentGrammar {
                read: self.read + 1,
                dots: false,
            })
        }
    }

    fn is_whole(self) -> bool {
        self.read > 0 && (!self.dots || self.read > 2)
    }
}
