// A component as a part of its name. Apart from the readers, since the contracts that name it must not stand where it is declared.
ghost use Rattle.tlv.specs.Bytes.{Bytes};
ghost use Rattle.lvs_names.specs.Alone.{is_alone};
ghost use Rattle.std.specs.Prelude.{◌≡◌, true};

/// A component that is cut out: its bytes, and how many of them are its type and length.
#[derive(Clone, Copy)]
pub struct Component<'a> {
    pub bytes: &'a [u8],
    pub header: usize,
    pub ghost fits: { Bytes bytes.now },
    pub ghost alone: { is_alone bytes.now header ≡ true },
}

impl<'a> Component<'a> {
    ghost use Rattle.std.specs.Prelude.{◌≡◌};
    ghost use Rattle.lvs_names.specs.Alone.{Alone};

    /// From bytes that are one component and no more, with a header of `header` bytes. A layer below the public calls: `requires` asks for that, and
    /// `component_at` has found it.
    #[inline(always)]
    pub fn new(bytes: &'a [u8], header: usize) -> Component<'a>
        requires { Alone bytes.now header }
        ensures { (result.bytes ≡ bytes.entry) × (result.header ≡ header) }
    {
        Component { bytes, header }
    }
}
