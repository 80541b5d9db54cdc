// The reader of a run of records: the lent bytes and a place in them. The methods of `Reader` are few and thin; the work is in
// `piece_at`, on a plain slice and a number. A caller that has a slice and a place calls `piece_in`.

#![tactic(auto)]

ghost use Rattle.std.specs.Prelude.{◌≡◌};
ghost use Rattle.records.specs.Pieces.{length_of, piece_at, reader_at};

// A run of records, and a place in it.
#[derive(Clone, Copy)]
pub struct Reader<'a> {
    pub run: &'a [u8],
    pub at: usize,
}

// What begins at a place: a whole record or the short last piece, each with the place where it ends; or nothing, if the place is the
// end of the run or past it.
#[derive(Clone, Copy, PartialEq, Eq, Debug)]
pub enum Piece {
    Record(usize),
    Short(usize),
    End,
}

const RECORD_BYTES: usize = 24;

// Where the kind stands in a record.
const KIND_AT: usize = 2;

impl<'a> Reader<'a> {
    // A reader at the start of a run.
    pub fn new(run: &'a [u8]) -> Reader<'a>
        ensures { result ≡ reader_at run.entry 0 }
    {
        Reader { run, at: 0 }
    }

    // The piece at the reader's place.
    pub fn next(self) -> Piece
        ensures { result ≡ piece_at self.entry.run.now self.entry.at }
    {
        piece_at(self.run, self.at)
    }

    // The reader at another place of its run.
    pub fn moved(self, at: usize) -> Reader<'a>
        ensures { result ≡ reader_at self.entry.run at }
    {
        Reader { run: self.run, at }
    }
}

// The piece at a place of a run.
pub fn piece_in(run: &[u8], at: usize) -> Piece
    ensures { result ≡ piece_at run.now at }
{
    Reader::new(run).moved(at).next()
}

// The length of a record of that kind.
pub fn length_of(kind: u8) -> usize
    ensures { result ≡ length_of kind }
{
    RECORD_BYTES
}

// What begins at a place of a slice. A piece too short to have a kind byte is the short last one.
fn piece_at(run: &[u8], at: usize) -> Piece
    ensures { result ≡ piece_at run.now at }
{
    let end = run.len();
    if end <= at {
        return Piece::End;
    }
    let left = end - at;
    if left <= KIND_AT {
        return Piece::Short(end);
    }
    let n = length_of(run[at + KIND_AT]);
    if left < n {
        return Piece::Short(end);
    }
    Piece::Record(at + n)
}
