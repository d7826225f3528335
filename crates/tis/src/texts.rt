//! The texts that the program prints on its own.
use crate::pages::Pages;

/// How the program is called, what it ends with, and a page for each command.
pub const PAGES: Pages = Pages {
    all: ALL,
    version: "tis 0.1.0\n",
    compile: COMPILE,
    net: NET,
    grade: GRADE,
    run: RUN,
    order: ORDER,
    replay: REPLAY,
    debug: DEBUG,
};

const ALL: &str = "\
tis: compiles networks of processes to programs for the TIS-100, and runs, grades and debugs saves

to see what a network computes
  tis net NET GRID                         prints the stream of each output
to make a save
  tis compile NET SAVE                     compiles a network to a save
to see whether a save is right
  tis grade SAVE SPEC LIMIT SEED [SEED ..] says whether it passes its puzzle, and how fast it is
to run a save
  tis run SAVE SPEC SEED CYCLES            runs it by the clock
  tis order SAVE SPEC SEED ORDERSEED LIMIT runs it in an order of its events that is drawn
  tis replay SAVE SPEC SEED EVENTS         runs it by the events of a file
to find what is wrong with it
  tis debug SAVE SPEC SEED SCRIPT          goes through its cycles, forth and back, by a script
to know more
  tis COMMAND --help                       prints the page of a command, with examples
  tis --help                               prints this text
  tis --version                            prints the version

It ends with 0 where all was done, 1 where a save isn't passed, 2 where the words are no command, 3
where a text was refused or an event can't happen in its turn, 4 where a file isn't there, 5 where a
file can't be read or written, 6 where standard output failed, 7 where memory ran out, and 8 where
as many cycles or events were done as were allowed. Where it isn't 0, a line on standard error says
why.
";

const COMPILE: &str = "\
tis compile NET SAVE

Compiles the network in the file NET to a save, and writes it to the file SAVE. The save does what
the network says in every order in which the events of its grid can happen.

reads   NET
writes  SAVE, where the status is 0

status
  0  the save was written
       $ tis compile column.net new.save
  2  the words are no command
       $ tis compile column.net
       not a command
  3  NET is no network of the form that is taken so far
       $ tis compile path_upwards.net new.save
       refused NotThisForm
  4  a file isn't there
       $ tis compile no_such_file new.save
       missing
  5  a file can't be read, as one of more than 16 MiB, or SAVE can't be written
       $ tis compile column.net .
       store fault
  7  memory ran out, with the line: no memory
";

const NET: &str = "\
tis net NET GRID

Says what the network in the file NET computes: the Kahn stream of each of its outputs over the
inputs of the grid text in the file GRID, whatever order its processes run in. An input of the
network at whose position GRID has none is empty, and nothing else of GRID counts. NET is read first,
then GRID, and then the rules of networks are looked for; the first that is broken is named.

reads   NET, GRID
writes  a line for each output to standard output, where the status is 0

status
  0  the streams, by ascending position
       $ tis net networks/filter.net networks/filter.grid
       out 1 5 7 1
  2  the words are no command
       $ tis net networks/filter.net
       not a command
  3  NET is no network, GRID is no grid text, or NET breaks a rule
       $ tis net networks/no_end.net networks/filter.grid
       refused Net Unclosed 6
       $ tis net networks/filter.net networks/filter.net
       refused Grid BadLine 2
       $ tis net networks/unread_input.net networks/filter.grid
       refused Rule Unread 5
  4  a file isn't there
       $ tis net no_such_file networks/filter.grid
       missing
  5  a file can't be read: a folder, no permission, more than 16 MiB
       $ tis net . networks/filter.grid
       store fault
  6  standard output failed
       $ tis net networks/filter.net networks/filter.grid >/dev/full
       sink fault
  7  memory ran out, with the line: no memory
";

const GRADE: &str = "\
tis grade SAVE SPEC LIMIT SEED [SEED ..]

Says of the save in the file SAVE whether it passes the puzzle in the file SPEC for each of one to
eight seeds, in their order, up to the first for which it doesn't. The outputs are looked at after 0,
1, 2 cycles and so on, up to LIMIT, and the first number of cycles that decides gives the verdict:
wrong, where an output has another value than is wanted; extra, where it has more values than are
wanted; passed, where each output is as wanted; stuck, where nothing more can happen; and late, where
LIMIT cycles weren't enough. LIMIT is at most 10000000. SPEC is a grid text, or a specification in Lua,
whose functions are called with SEED, a number below 2^64, and give the puzzle; a grid text is the same
for each.

reads   SAVE, SPEC
writes  a report to standard output, where the status is 0 or 1

status
  0  it is passed for each seed: the greatest number of cycles, and how large the save is
       $ tis grade column.save two_values.grid 6 1 2
       seed 1 passed 6
       seed 2 passed 6
       cycles 6 nodes 3 instructions 3
  1  it isn't passed for a seed
       $ tis grade column.save two_values.grid 5 1 2
       seed 1 late 5
       not passed
  2  the words are no command, as with no seed or with nine
       $ tis grade column.save two_values.grid 6
       not a command
  3  a text is refused: SPEC, and then SAVE over its tiles
       $ tis grade column.save column.save 6 1
       refused Syntax Syntax 1
       $ tis grade differences.save forty_values.lua 1000 1
       refused Puzzle BadStreams 2
  4  a file isn't there
       $ tis grade no_such_file two_values.grid 6 1
       missing
  5  a file can't be read: a folder, no permission, more than 16 MiB
       $ tis grade . two_values.grid 6 1
       store fault
  6  standard output failed
       $ tis grade column.save two_values.grid 6 1 >/dev/full
       sink fault
  7  memory ran out, with the line: no memory
";

const RUN: &str = "\
tis run SAVE SPEC SEED CYCLES

Runs the save in the file SAVE over the specification in the file SPEC, cycle by cycle, up to the first
after which nothing more can happen, or up to CYCLES of them, which is at most 10000000. SPEC is a grid
text, or Lua whose functions are called with SEED, a number below 2^64; a grid text is the same for each.

reads   SAVE, SPEC
writes  a report of the outputs to standard output, where the status is 0 or 8

status
  0  nothing more can happen
       $ tis run column.save two_values.grid 0 100
       rest 6
       out 1 5 7
  2  the words are no command
       $ tis run column.save two_values.grid 0
       not a command
  3  a text is refused: SPEC, and then SAVE over its tiles
       $ tis run column.save column.save 0 100
       refused Syntax Syntax 1
  4  a file isn't there
       $ tis run no_such_file two_values.grid 0 100
       missing
  5  a file can't be read: a folder, no permission, more than 16 MiB
       $ tis run . two_values.grid 0 100
       store fault
  6  standard output failed
       $ tis run column.save two_values.grid 0 100 >/dev/full
       sink fault
  7  memory ran out, with the line: no memory
  8  CYCLES cycles were done, and more can happen
       $ tis run column.save two_values.grid 0 5
       limit 5
       out 1 5
       limit 5
";

const ORDER: &str = "\
tis order SAVE SPEC SEED ORDERSEED LIMIT

Runs the save in the file SAVE over the specification in the file SPEC in an order of its events that
is drawn with ORDERSEED, until nothing more can happen, or up to LIMIT events, which is at most 10000000.
SPEC is a grid text, or Lua whose functions are called with SEED; a grid text is the same for each. SEED
and ORDERSEED are numbers below 2^64.

reads   SAVE, SPEC
writes  a report of the outputs to standard output, where the status is 0 or 8

status
  0  nothing more can happen
       $ tis order column.save two_values.grid 0 1 100
       rest 8
       out 1 5 7
  2  the words are no command
       $ tis order column.save two_values.grid 0 1
       not a command
  3  a text is refused: SPEC, and then SAVE over its tiles
       $ tis order column.save column.save 0 1 100
       refused Syntax Syntax 1
  4  a file isn't there
       $ tis order no_such_file two_values.grid 0 1 100
       missing
  5  a file can't be read: a folder, no permission, more than 16 MiB
       $ tis order . two_values.grid 0 1 100
       store fault
  6  standard output failed
       $ tis order column.save two_values.grid 0 1 100 >/dev/full
       sink fault
  7  memory ran out, with the line: no memory
  8  LIMIT events have happened, and more can
       $ tis order column.save two_values.grid 0 1 7
       limit 7
       out 1 5
       limit 7
";

const REPLAY: &str = "\
tis replay SAVE SPEC SEED EVENTS

Runs the save in the file SAVE over the specification in the file SPEC by the events in the file EVENTS,
one after the other. SPEC is a grid text, or Lua whose functions are called with SEED, a number below
2^64; a grid text is the same for each.

reads   SAVE, SPEC, EVENTS
writes  a report of the outputs to standard output, where the status is 0, and where it is 3 for an
        event that can't happen in its turn

status
  0  each event has happened
       $ tis replay merge.save merge.grid 0 right_first.events
       events 6
       out 1 2
  2  the words are no command
       $ tis replay merge.save merge.grid 0
       not a command
  3  a text is refused: SPEC, then SAVE over its tiles, then EVENTS
       $ tis replay column.save two_values.grid 0 column.save
       refused Events 1
     or an event can't happen in its turn: its index, counted from 0
       $ tis replay column.save two_values.grid 0 too_early.events
       not enabled 2
       out 1
       refused NotEnabled 2
  4  a file isn't there
       $ tis replay column.save two_values.grid 0 no_such_file
       missing
  5  a file can't be read: a folder, no permission, more than 16 MiB
       $ tis replay column.save two_values.grid 0 .
       store fault
  6  standard output failed
       $ tis replay merge.save merge.grid 0 right_first.events >/dev/full
       sink fault
  7  memory ran out, with the line: no memory
";

const DEBUG: &str = "\
tis debug SAVE SPEC SEED SCRIPT

Goes through the cycles of the save in the file SAVE over the specification in the file SPEC, as the
script in the file SCRIPT says, line by line:

  step N     does N cycles, at most 1000000, and fewer where nothing more can happen before
  go         does cycles until a node that made a step is ready at a marked instruction
  break T I  marks the instruction I of the node T, both counted from 0
  back N     takes the last N cycles back, of the last 64
  show       shows each node and stack, what is left of the inputs, and the outputs

SPEC is a grid text, or Lua whose functions are called with SEED, a number below 2^64; a grid text is
the same for each.

reads   SAVE, SPEC, SCRIPT
writes  what each line of the script comes to, to standard output, where the status is 0

status
  0  the script was done
       $ tis debug column.save two_values.grid 0 forth_and_back.script
       cycle 3
       cycle 1
       no history 1
  2  the words are no command
       $ tis debug column.save two_values.grid 0
       not a command
  3  a text is refused: SPEC, then SAVE over its tiles, then SCRIPT
       $ tis debug column.save two_values.grid 0 column.save
       refused Script 1
  4  a file isn't there
       $ tis debug column.save two_values.grid 0 no_such_file
       missing
  5  a file can't be read: a folder, no permission, more than 16 MiB
       $ tis debug column.save two_values.grid 0 .
       store fault
  6  standard output failed
       $ tis debug column.save two_values.grid 0 forth_and_back.script >/dev/full
       sink fault
  7  memory ran out, with the line: no memory
";
