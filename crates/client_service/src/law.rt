//! Laws of runs of reads. Each is the contract of a function that does nothing.

ghost use Rattle.client_service.specs.Runs.{RunsAreReads};

/// Reads that wait for their answers while nothing else is done are answered as if each had been answered at once. What
/// all of them show may be looked up before the first is answered.
pub fn runs_of_reads()
    ensures { RunsAreReads }
{
    sessions::others_stay();
}
