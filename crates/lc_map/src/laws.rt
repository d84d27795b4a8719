// What a map means, by the definitions alone. The functions do nothing: they state laws by their contracts.
ghost use Rattle.std.specs.Prelude.{◌≡◌, ◌≢◌, ◌↔◌, ℕ, ◌+◌, ◌*◌, ◌≤◌, List as Items, flat_map, true, false};
ghost use Rattle.std.specs.List.{list_any, range_with_len};
ghost use Rattle.lc_rated.specs.Cuts.{IsFraction};
ghost use Rattle.lc_rated.specs.declared.answer.Answer.{Answer};
ghost use Rattle.lc_record.specs.Reading.{IsTextOf};
ghost use Rattle.lc_record.specs.declared.reader.Record.{Record};
ghost use Rattle.lc_map.specs.Map.{bound_byte, row_samples};
ghost use Rattle.lc_map.specs.Scale.{misses, sample_reaches, share_of};

/// The samples of the pixels, by rows from the top and in each from the left, are the lines of the record in their
/// order: each line is that of one sample of one pixel.
pub fn pixels_of_a_record()
    ensures { (kept : Record) (text : Items ℕ) → IsTextOf kept.header kept.lines text →
        flat_map (row_samples kept) (range_with_len 0 kept.header.height) ≡ kept.lines }
{}

/// The shares of the bytes double every 16 bytes and never fall. The byte of a pixel is the greatest that a bound of it
/// reaches, and where it is not 0 there is one that does. A sample misses the permille exactly where its bound is not
/// within it.
pub fn scale_of_bounds()
    ensures doubles { (byte : ℕ) → share_of (byte + 16) ≡ 2 * share_of byte }
    ensures rises { (low byte : ℕ) → low ≤ byte → share_of low ≤ share_of byte }
    ensures greatest { (samples : Items Answer) (byte : ℕ) → byte ≤ 255 →
        list_any (sample_reaches byte) samples ≡ true → byte ≤ bound_byte samples }
    ensures reached { (samples : Items Answer) → bound_byte samples ≢ 0 →
        list_any (sample_reaches (bound_byte samples)) samples ≡ true }
    ensures missed { (permille : ℕ) (a : Answer) → (misses permille a ≡ false) ↔ IsFraction permille a }
{}
