// The records of the book's exclusions, with which every listing begins.
// For this crate only: no other can name these functions, and each call is proved to meet its condition.
ghost use Rattle.std.specs.Prelude.{◌≡◌, map, length};
ghost use Rattle.layout.specs.Nodes.{exclusion_records};
ghost use Rattle.layout.specs.Writing.{RoomFor, put_records};
ghost use Rattle.translation.specs.Translation.{pair_mask};
ghost use Rattle.book.specs.Ranges.{ExclusionInRange};

// The set of the two signals of an exclusion.
fn pair_mask(exclusion: peal::Exclusion) -> u32
    requires { ExclusionInRange exclusion }
    ensures { result ≡ pair_mask exclusion }
{
    signals::bit(exclusion.first) + signals::bit(exclusion.second)
}

// The records of all exclusions, from record 1 on.
pub fn put_exclusions(book: &book::Book, words: &mut [u32])
    requires { RoomFor 1 (length book.now.exclusions) words.old }
    ensures { words.new ≡ put_records words.old 1 (exclusion_records 1 (map pair_mask book.now.exclusions)) }
{
    let exclusions = book.exclusions();
    for (i, exclusion) in exclusions.iter().enumerate() {
        let at = i + 1;
        let record = layout::Record {
            kind: layout::EXCLUSION,
            mask: pair_mask(*exclusion),
            lines: 0,
            next: (at + 1) as u32,
        };
        layout::put_record(words, at, record);
    }
}
