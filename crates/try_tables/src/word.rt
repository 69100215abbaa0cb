// The words of the script.

// A function that is lent tables.
#[derive(Clone, Copy, Debug, PartialEq, Eq, Hash)]
pub(crate) enum Call {
    Fresh,
    Feed,
    Chunk,
    Ask,
    Sheet,
    Trace,
}

// What a step does, by its word.
#[derive(Clone, Copy, Debug, PartialEq, Eq, Hash)]
pub(crate) enum Word {
    Remark,
    Sizes,
    Names,
    Nums,
    Ticks,
    Call(Call),
}

// No step has this word.
#[derive(Clone, Copy, Debug, PartialEq, Eq, Hash)]
pub(crate) struct NoSuchWord;

// The bytes of a word that count: the last eight, and of these no byte 0 in front.
fn counted(word: &[u8]) -> &[u8] {
    let last = &word[word.len().saturating_sub(8)..];
    let zeros = last.iter().position(|b| *b != 0).unwrap_or(last.len());
    &last[zeros..]
}

impl TryFrom<&[u8]> for Word {
    type Error = NoSuchWord;

    fn try_from(s: &[u8]) -> Result<Word, NoSuchWord> {
        Ok(match counted(s) {
            b"#" => Word::Remark,
            b"sizes" => Word::Sizes,
            b"names" => Word::Names,
            b"nums" => Word::Nums,
            b"ticks" => Word::Ticks,
            b"fresh" => Word::Call(Call::Fresh),
            b"feed" => Word::Call(Call::Feed),
            b"chunk" => Word::Call(Call::Chunk),
            b"ask" => Word::Call(Call::Ask),
            b"sheet" => Word::Call(Call::Sheet),
            b"trace" => Word::Call(Call::Trace),
            _ => return Err(NoSuchWord),
        })
    }
}
