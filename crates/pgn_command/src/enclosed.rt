ghost use Rattle.std.specs.Prelude.{◌≡◌, ◌+◌, ◌<◌, ◌≤◌, length, flat_map, IfSome};
ghost use Rattle.pgn_base.specs.declared.limits.TheConstants.{LINE_BYTES_MAX};
ghost use Rattle.pgn_language.specs.Quotes.{doubled_byte};
ghost use Rattle.pgn_command.specs.Texts.{single};

/// What stands between two quotes, as it is written: each quote in it twice.
#[derive(Clone, Copy)]
pub struct Enclosed<'a> {
    /// The quote, `"` or `'`.
    pub quote: u8,
    /// What stands between the two.
    pub raw: &'a str,
    /// How many quotes are written twice.
    pub doubled: usize,
    ghost ascii: { quote < 128 },
    ghost short: { length raw.now ≤ LINE_BYTES_MAX },
    ghost spelled: { raw.now ≡ flat_map (doubled_byte quote) (single quote raw.now) },
    ghost counted: { length (single quote raw.now) + doubled ≡ length raw.now },
}

impl<'a> Enclosed<'a> {
    /// How many bytes the text has, each quote in it once.
    pub fn len(&self) -> usize
        ensures { result ≡ length (single self.now.quote self.now.raw.now) }
    {
        self.raw.len() - self.doubled
    }

    /// The text itself, where no quote stands in it.
    pub fn plain(&self) -> Option<&'a str>
        ensures { IfSome result (λ text. text.now ≡ single self.now.quote self.now.raw.now) }
    {
        if self.doubled == 0 {
            Some(self.raw)
        } else {
            None
        }
    }
}
