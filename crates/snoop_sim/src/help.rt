//! The texts of the helps.

/// A help: texts, and by name the parts that several helps have.
macro_rules! help {
    (@ [$($text:literal)*]) => {
        concat!($($text),*)
    };
    (@ [$($text:literal)*] asks $($rest:tt)*) => {
        help!(@ [$($text)* "
  L,core,address        the core loads from the address
  S,core,address,value  the core stores the value at the address
  E,core,address        the core evicts the block of the address"] $($rest)*)
    };
    (@ [$($text:literal)*] bus $($rest:tt)*) => {
        help!(@ [$($text)* "
  O,core                the bus orders the core's oldest request
  R,address             the response for the block of the address comes"] $($rest)*)
    };
    (@ [$($text:literal)*] numbers $($rest:tt)*) => {
        help!(@ [$($text)* "
Numbers are decimal, or hexadecimal after 0x. An address is in bytes. A block has
--words values, each of an equal part of its bytes (of 8 or more, if there are several)."] $($rest)*)
    };
    (@ [$($text:literal)*] rows $($rest:tt)*) => {
        help!(@ [$($text)* "
A text without O and R is for --of rows: its steps are those that `snoop run` takes, and
with --serial those that `snoop run --serial` takes."] $($rest)*)
    };
    (@ [$($text:literal)*] replies $($rest:tt)*) => {
        help!(@ [$($text)* "

Each step has a line of output: the step, a colon and the reply.
  hit 5, store hit          done in the core's own copy; the load read 5
  issued GetS               the request waits: GetS, GetM or PutM
  gone, absent              evicted without a request; nothing to evict
  ordered GetS              the request is ordered, its transaction open
  Data from memory, load 5  the response (Data, DataE, NoData or NoDataE), who
                            sent it, and the load or store that it completes"] $($rest)*)
    };
    (@ [$($text:literal)*] report $($rest:tt)*) => {
        help!(@ [$($text)* "
Then the report: loads and stores performed, and the hits among them; requests
ordered; responses from memory and from caches; writebacks, with the clean and the
stale ones; and the last value stored in each word of each block."] $($rest)*)
    };
    (@ [$($text:literal)*] faults $letters:literal $counts:literal $($rest:tt)*) => {
        help!(@ [$($text)* "

One fault refuses the whole text. The message names its record, `snoop lint` also its line:
  BadKind    no capital " $letters " at the line's head (no column names, no comments)
  BadFields  " $counts "
  BadNumber  not decimal or 0x.., or above 2^64 - 1; no blanks, signs or comments
  NoCore     the core is --cores or above
  NoBlock    the address is --blocks times --block-bytes (256 by default) or above"] $($rest)*)
    };
    (@ [$($text:literal)*] heading $($rest:tt)*) => {
        help!(@ [$($text)* "
  OtherShape the heading V,2,protocol,cores,blocks,block-bytes,words has other options
  BadVersion a first line with V has another number than 2 there"] $($rest)*)
    };
    (@ [$($text:literal)*] serial $($rest:tt)*) => {
        help!(@ [$($text)* "
  BadSerial  --serial comes without --of rows"] $($rest)*)
    };
    (@ [$($text:literal)*] choice $($rest:tt)*) => {
        help!(@ [$($text)* "
  BadBlock   --block is not below --blocks
  BadRange   --from is 0, or above --to"] $($rest)*)
    };
    (@ [$($text:literal)*] more $($rest:tt)*) => {
        help!(@ [$($text)* "

Exit statuses: snoop --help. More in docs/TEXTS.md."] $($rest)*)
    };
    (@ [$($text:literal)*] $next:literal $($rest:tt)*) => {
        help!(@ [$($text)* $next] $($rest)*)
    };
    ($($part:tt)*) => {
        help!(@ [] $($part)*)
    };
}

pub(crate) const PROGRAM: &str = "\
Reads a text from standard input, and writes one to standard output. A file is
handed in by `<`:
  snoop steps < FILE
  printf 'L,0,0\\nO,0\\nR,0\\n' | snoop steps

`steps` and `run` write a line for each step, which ends with the machine's reply
(hit, store hit, issued, ordered, Data, NoData, gone, absent, refused), and then a
report: counts, and the last values of each block. `snoop COMMAND --help` says more,
and `snoop lint` says what is wrong with a text that is refused.

Exit statuses:
  0  done, even where steps were refused
  1  the text was refused, or could not be read (Read); nothing was written
  2  the command line was refused, or the shape (BadCores, BadBlocks, BadBytes,
     BadWords: outside the limits of its options), or what is to be shown (BadBlock,
     BadRange, BadSerial, BadChoice, BadBy, BadTop, BadEvery, TooLarge); nothing was
     written
  3  out of memory; the output may be cut short
  4  a write failed; the output may be cut short
  5  the threads of `snoop threads` were refused; nothing was written

More in docs/TEXTS.md.";

pub(crate) const STEPS: &str = help!(
    "Reads standard input: `snoop steps < FILE`. Each line is a step:"
    asks
    bus
    numbers
    "
Example: printf 'L,0,0\\nO,0\\nR,0\\n' | snoop steps"
    replies
    "
  refused Stalled IM_AD     not taken: the core's line is in a transient state; or
                            NothingWaiting, NoTransaction, or BusTaken 0: block 0
                            has an open transaction"
    report
    "
All counts 0? A text without O and R is for `snoop run`."
    faults "L, S, E, O or R" "L and E take 2 numbers, S 3, O and R 1"
    heading
    more
);

pub(crate) const RUN: &str = help!(
    "Reads standard input: `snoop run < FILE`. Each line is what a core does next:"
    asks
    numbers
    "
Example: printf 'S,0,0,5\\nL,1,0\\n' | snoop run

Snoop finds the bus steps itself: O,core orders the core's oldest request, and
R,address brings the response. `run` keeps the order of each core's lines alone, and
lets the cores go side by side; --serial keeps the order of the whole text."
    replies
    report
    faults "L, S or E" "L and E take 2 numbers, S 3"
    "
A text with V, O or R is for `snoop steps`."
    more
);

pub(crate) const THREADS: &str = help!(
    "Reads standard input: `snoop threads < FILE`. Each line is what a core does next:"
    asks
    numbers
    "
Example: printf 'S,0,0,5\\nL,1,0\\n' | snoop threads

Each core's lines are done in a thread of its own, in their order. The output is a
text of steps, for `snoop steps` with the same options, which its first line names;
that writes their replies and the report (see `snoop steps --help`):
  snoop threads --cores 4 < FILE | snoop steps --cores 4
It is one possible order, which may differ from run to run, and measures nothing."
    faults "L, S or E" "L and E take 2 numbers, S 3"
    "
A text with V, O or R is for `snoop steps`."
    more
);

pub(crate) const STATES: &str = help!(
    "Reads standard input: `snoop states < FILE`. Each line is a step:"
    asks
    bus
    numbers
    rows
    "
Example: printf 'L,0,0\\nO,0\\nR,0\\n' | snoop states

Each block has a table: a row for each step of it, a column for each core that asks for
it, the bus and memory, and the step's line. A dot stands for the cell above.
  SM_AD 0 #1       the state, the values kept, the request's place in the core's queue
  C1 GetM: Data 0  the open transaction, and the message under way
--as csv: a line for each controller that takes a row of its table (see `snoop table`),
with its values after it, and the request's place in the queue, from 1. Refused options:"
    serial
    choice
    faults "L, S or E (in steps O, R)" "L and E take 2 numbers, S 3, O and R 1"
    heading
    more
);

pub(crate) const COUNTS: &str = help!(
    "Reads standard input: `snoop counts --by row < FILE`. Each line is a step:"
    asks
    bus
    numbers
    rows
    "
Example: printf 'L,0,0\\nO,0\\nR,0\\n' | snoop counts --by row

The first line of output names the fields. --by row: each row of the cache table and of
the memory table has a line (see `snoop table`), with how often it was taken, by all
cores together. A stall counts too; a core in I at another core's request is left out.
--by core, --by block: each core or block that the text names has a line (docs/TEXTS.md).
--by word: each word of each block that several cores use. --top N: the N blocks of most requests.
--every N: a line for steps 1 to N, one for the next N, and so on. Refused options:"
    serial
    "
  BadBy      neither --by nor --every, or both
  BadTop     --top comes without --by block
  BadEvery   --every is 0"
    faults "L, S or E (in steps O, R)" "L and E take 2 numbers, S 3, O and R 1"
    heading
    more
);

pub(crate) const LINT: &str = "\
Reads standard input to its end: `snoop lint < FILE`. Each of the first 20 faulty records
(--most N) has a line of output: its number, the line it begins on, the fault, what was
expected there, and which option would allow it. Then come how many records and faults
there are, the cores and blocks that the text needs, and whether it looks like a text of
the other kind.
Example: printf 'L,0\\n' | snoop lint
  record 1, line 1: BadFields: L has 3 fields (L,core,address), and this record has 2
  1 fault in 1 record
  no O and no R: is this a text for snoop run?

The status is 0 where the text was read, with faults or without. Which requests still
wait at the end of a text without faults is in the last line of `snoop states`.

Exit statuses: snoop --help. More in docs/TEXTS.md.";

pub(crate) const DRAW: &str = help!(
    "Reads standard input: `snoop draw < FILE`. Each line is a step:"
    asks
    bus
    numbers
    rows
    "
Example: printf 'L,0,0\\nO,0\\nR,0\\n' | snoop draw

Each step has a line of output, each block a panel in it: a column for each core that
asks for the block, the bus and memory, with what a step changes. The legend at the
end names the marks. A panel for each block makes a line long: --block N draws one.
--as svg draws the same as an image, --as html as a page to step through
(docs/DRAWING.md). They have --theme, and --shown N, which keeps the size and leaves
out the steps behind the N-th. --ascii is for text alone.

A text is refused as by `snoop steps`, with --of rows as by `snoop run`. Refused options:"
    serial
    "
  BadChoice  --theme or --shown comes with --as text, or --ascii with another form"
    choice
    "
  TooLarge   more than a million cells, of svg and html 20,000: draw one --block, fewer steps
             (--from, --to), or a text with fewer cores"
    more
);

pub(crate) const TABLE: &str = "\
No input is read. Each line of output is a row of the table: state, event, action
and next state, with commas between.
--as matrix: a line for each state, with a field for each event: action/next, or
nothing where the state never meets the event. The first line names the events.
Example: snoop table --protocol mesi --which memory --as matrix

Exit statuses: snoop --help. More in docs/PROTOCOL.md.";
