// Laws of the texts of requests, each the contract of a function that does nothing.
ghost use Rattle.std.specs.Prelude.{◌≡◌, ℕ, List, Ok};
ghost use Rattle.requests.specs.Requests.{HasForms, request_in, request_text};
ghost use Rattle.requests.specs.declared.request.Request.{Request};

/// What is written of a request is read as that request.
pub fn written_is_read()
    ensures { (request : Request) → HasForms request
        → request_in (request_text request) ≡ Ok request }
{}

/// Nothing else is read as it: a text that is read as a request is what is written of it.
pub fn one_spelling()
    ensures { (text : List ℕ) (request : Request) → request_in text ≡ Ok request
        → (text ≡ request_text request) × HasForms request }
{}
