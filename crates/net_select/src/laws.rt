//! Laws of selection.
ghost use Rattle.net_select.specs.Laws.{LinesAreTold, CodeBehaves, CodeIsSound};

use net_rules::processes_wait;

/// The code of a process has as many instructions as its lines tell, whatever its ports are.
pub fn lines_are_told()
    ensures { LinesAreTold }
{}

/// The code of each process of an accepted network behaves as the process, for any ports that are distinct on each side:
/// whatever the neighbours of its node do, the node reads, sends and waits as the process does over the values that it took,
/// and by itself it takes at most eight steps for one of the process.
pub fn code_behaves()
    ensures { CodeBehaves }
{
    // The call tells the proof that each process of an accepted network comes to wait.
    processes_wait();
}

/// Each jump of the code of a process goes to one of its instructions, whatever its ports are.
pub fn code_is_sound()
    ensures { CodeIsSound }
{}
