// The claim on every list of calls, what follows from it for the auditor, writes in parts, and quick find beside find.
#![tactic(auto)]

ghost use Rattle.history.specs.Dates.{Dates};
ghost use Rattle.history.specs.Deleting.{Deleting};
ghost use Rattle.history.specs.EveryList.{EveryList};
ghost use Rattle.history.specs.History.{EveryRun};
ghost use Rattle.history.specs.InParts.{EveryCut, InParts};
ghost use Rattle.history.specs.InPieces.{InPieces};
ghost use Rattle.history.specs.PartCases.{PartCases};
ghost use Rattle.history.specs.QuickFind.{QuickAny, QuickFind, QuickReads};
ghost use Rattle.history.specs.ReadBack.{ReadBack};
ghost use Rattle.history.specs.Renaming.{Renaming};
ghost use Rattle.history.specs.Room.{Room};
ghost use Rattle.history.specs.Untouched.{Untouched};
ghost use Rattle.history.specs.WrappedParts.{EveryWrappedCut, WrappedInParts};
ghost use Rattle.history.specs.WrappedRuns.{EveryWrappedList, WrappedRuns};
ghost use Rattle.history.specs.Wrapping.{Wrapping};

// Every list of calls from an accepted image keeps step with its history.
pub fn every_run()
    ensures { EveryRun }
{}

// What follows from that for the auditor.

// After any list of calls, a file that no call that changes the image was given the name of is what it was: its bytes,
// its dates and all the rest.
pub fn untouched()
    ensures { Untouched }
{}

// The files that a call does not touch are the same after it, dates and all; the one that it made or changed has the dates that the
// call was given.
pub fn dates()
    ensures { Dates }
{}

// Deleting one file changes no byte and no date of another.
pub fn deleting()
    ensures { Deleting }
{}

// A rename gives one file a name and a date of change, and leaves all else of every file.
pub fn renaming()
    ensures { Renaming }
{}

// "Disk full" is said only where a write needs more new blocks than are free, and no block is hidden: free blocks and the files'
// blocks together are all blocks of the disk.
pub fn room()
    ensures { Room }
{}

// What read gives of a fork that was written in pieces, one behind the other, is the bytes written, in place.
pub fn in_pieces()
    ensures { InPieces }
{}

// A read after a write, at the same place and of the same length, gives the bytes written.
pub fn read_back()
    ensures { ReadBack }
{}

// No list of calls falls out of the claim: whatever is called has a run, and that run keeps step with its history.
pub fn every_list()
    ensures { EveryList }
{}

// Writes in parts (document 02, T-06).

// Where a write succeeds, its parts, written one behind the other from the same offset with the same date, leave the very image that it
// leaves; where it is refused for room, some part is, and those before it succeed; where it is refused otherwise, the first part gets the
// same number.
pub fn in_parts()
    ensures { InParts }
{}

// No way to cut falls out of that: whatever write is made, its parts can be written, up to one that is refused.
pub fn every_cut()
    ensures { EveryCut }
{}

// Worked cases of what these say of events.
pub fn part_cases()
    ensures { PartCases }
{}

// Quick find (document 02, T-08).

// On every accepted image its number, place and entry are find's, and its count is that of the directory blocks up to the entry's, or of all
// of them.
pub fn quick_find_is_find()
    ensures { QuickFind }
{}

// On every image its refusals 1 to 4 are check's, and what it finds is the first equal name among the entries so read.
pub fn quick_find_on_any()
    ensures { QuickAny }
{}

// No byte but those of checks 1 to 4 and of the directory blocks looked at can change its answer.
pub fn quick_find_reads()
    ensures { QuickReads }
{}

// Wrapped files.

// Every list of the nine calls from a sound container with an accepted image inside keeps step with its history.
pub fn wrapped_runs()
    ensures { WrappedRuns }
{}

// No list of the nine calls on a wrapped file falls out of that claim.
pub fn every_wrapped_list()
    ensures { EveryWrappedList }
{}

// A wrapped image unwraps to the image.
pub fn wrapping()
    ensures { Wrapping }
{}

// The same of a write to a wrapped file: its parts leave the very file that it leaves, the data checksum too, and are refused alike.
pub fn wrapped_in_parts()
    ensures { WrappedInParts }
{}

// No way to cut falls out of that.
pub fn every_wrapped_cut()
    ensures { EveryWrappedCut }
{}
