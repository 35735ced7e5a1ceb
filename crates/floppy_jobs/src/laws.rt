// What follows from the contract on the spelling of a request. The bodies are empty.
ghost use Rattle.std.specs.Prelude.{◌≡◌, Ok, [], ◌∷◌};
ghost use Rattle.floppy_jobs.specs.Spelling.{spelling};
ghost use Rattle.floppy_jobs.specs.Texts.{job_of};
ghost use Rattle.floppy_jobs.specs.Valid.{IsRequest};
ghost use Rattle.floppy_jobs.specs.declared.request.Request.{Request};

/// The plain spelling of a request that a job may have is a job of this request alone.
pub fn spelling_reads_back()
    ensures { (request : Request) → IsRequest request → job_of (spelling request) ≡ Ok (request ∷ []) }
{}
