//! What each code says in words.
ghost use Rattle.std.specs.Prelude.{◌≡◌};
ghost use Rattle.top_hints.specs.Tables.{conf_words, graph_words, script_words};

/// Of a configuration, a list of components, or requests.
#[tactic(auto, unfolding(crate::specs::Tables::conf_words))]
pub(crate) fn conf_words(code: u8) -> &'static str
    ensures { result.now ≡ conf_words code }
{
    match code {
        1 =>
            "a word that isn't expected here, or too few or too many words; names have no blanks and are ASCII",
        2 => "not a number, or out of its range",
        3 => "the section is unknown, repeated, out of order or missing",
        4 => "this level can't have so many columns, or v isn't their number",
        5 => "more or fewer disks than the array's line says",
        6 => "more or fewer spares than the array's line says",
        7 => "a name that stands already, is longer than 255 bytes, or is absent as a spare",
        8 => "the level isn't 0, 1, 4, 5, C, T or D",
        9 => "SUsPerPU and SUsPerRU are 1 here",
        10 => "the queue is fifo",
        11 => "a design is wanted here, or its tuple lines are too few or of another length",
        12 => "this is no block design, or k is below 3 at level D",
        13 => "more than 1024 names",
        14 => "the span passes the disk's end",
        15 => "the tick is below that of the line before",
        16 => "more than 4096 requests, or more than 262144 sectors in all reads together",
        _ => "not a pattern: 2, 4, 8, 16, 32 or 64 hexadecimal digits",
    }
}

/// Of a script; code 8 is of its trace.
#[tactic(auto, unfolding(crate::specs::Tables::script_words))]
pub(crate) fn script_words(code: u8) -> &'static str
    ensures { result.now ≡ script_words code }
{
    match code {
        1 => "a word that isn't expected here, or too few or too many words",
        2 => "not a number, or a count of 0",
        3 => "the client isn't 0 to 15",
        4 => "not a pattern: 2, 4, 8, 16, 32 or 64 hexadecimal digits",
        5 => "the array has no such column",
        6 => "no graph of the file behind --graphs has this name",
        7 => "more than 65536 items, or more than 262144 blocks in all reads together",
        9 => "two spans of the item share a block",
        10 =>
            "a graph can't be half of a joined one, or the first has a stripe that its span doesn't touch",
        11 => "the stripes of the first span aren't all before those of the second",
        12 => "the two graphs are too large together",
        _ => "more than 64 joins",
    }
}

/// Of a file of graphs.
#[tactic(auto, unfolding(crate::specs::Tables::graph_words))]
pub(crate) fn graph_words(code: u8) -> &'static str
    ensures { result.now ≡ graph_words code }
{
    match code {
        1 => "a word that isn't expected here, too few or too many words, or no name of a graph",
        2 => "not a number",
        3 => "not the next number: buffers and nodes are numbered from 0",
        4 => "an earlier graph of the file has this name",
        5 =>
            "more than 2048 buffers, nodes or returns, 16384 sources and antecedents, or 64 graphs",
        _ => "the text ends within a graph",
    }
}
