// Keywords, and what they stand for.
ghost use Rattle.std.specs.Prelude.{◌≡◌, map};
ghost use Rattle.lc_scan.specs.Keywords.{look_up};

/// What a word stands for in a table of words, each with what it stands for: the first entry of the word tells.
pub fn look_up<K: Copy>(table: &[(&[u8], K)], word: &[u8]) -> Option<K>
    ensures { result ≡ look_up (map (λ entry. (entry.0.now, entry.1)) table.entry.now) word.now }
{
    let mut rest = table;
    while let [entry, later @ ..] = rest {
        if word == entry.0 {
            return Some(entry.1);
        }
        rest = later;
    }
    None
}
