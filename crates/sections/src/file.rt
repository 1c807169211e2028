// A file whose sections are known to lie within it.
ghost use Rattle.sections.specs.Layout.{Sections, FewPins, Follow-prop};
ghost use Rattle.std.proofs.Props.{props};

// The bytes of a file that passed checks 1 to 4.
#[derive(Clone, Copy)]
pub struct FileBytes<'a> {
    pub bytes: &'a [u8],
    ghost sections: { Sections bytes.now } by { Prim.hlevel (Follow-prop, props) },
    ghost few_pins: { FewPins bytes.now },
}
