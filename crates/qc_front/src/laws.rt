//! Laws of a front end's conduct, each the contract of a function with nothing
//! to do. First what holds of it in every run, and that each move keeps it.

ghost use Rattle.std.specs.Prelude.{◌≡◌, ℕ, ◌+◌, ◌-◌, ◌^◌, ◌<◌, ◌≤◌, true, false, ◌∷◌, [], Option, None, Some, length};
ghost use Rattle.qc_decl.specs.Accepted.{IsAccepted};
ghost use Rattle.qc_decl.specs.declared.declaration.Declaration.{Declaration};
ghost use Rattle.qc_front.specs.Conduct.{called, requested, sent, takes};
ghost use Rattle.qc_front.specs.Counted.{KeepsLives, Learns, asked_at, lives_of};
ghost use Rattle.qc_front.specs.Fits.{FrontFits};
ghost use Rattle.qc_front.specs.Front.{ended, moved, new_front};
ghost use Rattle.qc_front.specs.Going.{GoesOn, calls_in, is_idle};
ghost use Rattle.qc_front.specs.Holds.{AreApart, FrontHolds, IsNumbered, sites_called};
ghost use Rattle.qc_front.specs.Replies.{DoTold};
ghost use Rattle.qc_front.specs.Requests.{AreSent, AsksAtOnce, IsNextCall};
ghost use Rattle.qc_front.specs.declared.front.Front.{Front};
ghost use Rattle.qc_msg.specs.Turns.{quiet};
ghost use Rattle.qc_msg.specs.declared.message.Answer.{Answer};
ghost use Rattle.qc_msg.specs.declared.step.Command.{Command};
ghost use Rattle.qc_msg.specs.declared.step.Command.TheVariants.{Do};

/// It holds at the beginning, and where a transaction ends elsewhere.
pub fn new_front_ends_hold()
    ensures new { (decl : Declaration) (client : ℕ) → FrontHolds decl (new_front client) }
    ensures ended { (decl : Declaration) (front : Front) (clock epoch : ℕ) → FrontHolds decl (ended front clock epoch) }
{}

/// A command keeps it.
pub fn commands_keep_hold()
    ensures { (decl : Declaration) (front : Front) (command : Command) → FrontHolds decl front
        → FrontHolds decl (called decl front command).front }
{}

/// So does whatever comes of a request.
pub fn answers_keep_hold()
    ensures { (decl : Declaration) (front : Front) (number : ℕ) (answer : Option Answer) → FrontHolds decl front
        → FrontHolds decl (takes decl front number answer).front }
{}

/// So do the numbers of requests, all at once or one after another.
pub fn numbers_keep_hold()
    ensures sent { (decl : Declaration) (front : Front) (first : ℕ) → FrontHolds decl front
        → FrontHolds decl (sent front first) }
    ensures requested { (decl : Declaration) (front : Front) (number site : ℕ) → FrontHolds decl front
        → IsNextCall front.doing number site → FrontHolds decl (requested front number site) }
{}

/// Where a declaration is accepted, this and a bound on the count are all that
/// the calls of a front end ask.
pub fn front_ends_fit()
    ensures { (decl : Declaration) (front : Front) → IsAccepted decl → FrontHolds decl front
        → front.count < 2 ^ 32 - 1 → FrontFits front }
{}

/// Between two inputs, where each awaited site has an open request with its
/// number, a command's turn asks sites only where no request is open, and then
/// all awaited ones at once. One call with the number of the next message
/// leaves the front end as it is after each of them.
pub fn commands_ask_at_once()
    ensures { (decl : Declaration) (front : Front) (command : Command) → FrontHolds decl front
        → IsNumbered front.doing → AsksAtOnce decl (called decl front command) }
{}

/// So does the turn for whatever comes of a request.
pub fn answers_ask_at_once()
    ensures { (decl : Declaration) (front : Front) (number : ℕ) (answer : Option Answer) → FrontHolds decl front
        → IsNumbered front.doing → AsksAtOnce decl (takes decl front number answer) }
{}

/// A turn sends nothing but requests of the running `do`, with its
/// transaction's name and epoch and the known life of the receiver, and
/// verdicts of the transaction that is given up. A Read names the object and
/// the invocation. An Append carries the object's view and all own lines of
/// the object that weigh, the new one last.
pub fn turns_send_requests_and_verdicts()
    ensures commands { (decl : Declaration) (front : Front) (command : Command)
        → AreSent decl front (called decl front command) }
    ensures answers { (decl : Declaration) (front : Front) (number : ℕ) (answer : Option Answer)
        → AreSent decl front (takes decl front number answer) }
{}

/// A `do` is told what its round came to. A response is that of the first
/// event that is legal after the view, and its append round is met. A refusal
/// while appending dooms the transaction, one while reading doesn't.
pub fn replies_are_as_rounds_come()
    ensures commands { (decl : Declaration) (front : Front) (object inv : ℕ)
        → DoTold decl front.client front.transaction (called decl front (Do object inv)).front.transaction
        (called decl front (Do object inv)).turn.told }
    ensures answers { (decl : Declaration) (front : Front) (number : ℕ) (answer : Option Answer) → FrontHolds decl front
        → DoTold decl front.client front.transaction (takes decl front number answer).front.transaction
        (takes decl front number answer).turn.told }
{}

/// A `do` is told its reply just where nothing is waited for any more. Until
/// then it waits for an open request.
pub fn dos_go_on()
    ensures commands { (decl : Declaration) (front : Front) (object inv : ℕ) → is_idle front.doing ≡ true
        → GoesOn (called decl front (Do object inv)) }
    ensures answers { (decl : Declaration) (front : Front) (number : ℕ) (answer : Option Answer)
        → is_idle front.doing ≡ false → GoesOn (takes decl front number answer) }
    ensures waits { (decl : Declaration) (front : Front) → FrontHolds decl front → IsNumbered front.doing
        → is_idle front.doing ≡ false → 0 < length (calls_in front.doing) }
{}

/// No two open requests are for one site: a round asks each site once.
pub fn sites_have_one_open_request()
    ensures { (decl : Declaration) (front : Front) → FrontHolds decl front
        → AreApart (sites_called (calls_in front.doing)) }
{}

/// What that law refuses: two open requests for one site, whatever their numbers.
pub fn second_requests_for_a_site_are_refused()
    ensures { (first second site : ℕ) → AreApart (sites_called (record { number = first; site = site }
        ∷ record { number = second; site = site } ∷ [])) → ⊥ }
{}

/// The first thing that comes of an open request counts, and all else changes
/// nothing: a request isn't open any more then, and requests of later turns
/// have later numbers.
pub fn requests_count_once()
    ensures open { (decl : Declaration) (front : Front) (number : ℕ) (answer : Option Answer)
        → asked_at front number ≡ None → takes decl front number answer ≡ moved front quiet }
    ensures once { (decl : Declaration) (front : Front) (number : ℕ) (answer : Option Answer)
        → asked_at (takes decl front number answer).front number ≡ None }
    ensures later { (front : Front) (number first : ℕ) → number < first → asked_at front number ≡ None
        → asked_at (sent front first) number ≡ None }
{}

/// A participant's life is that of its first grant that counted.
pub fn first_grants_give_lives()
    ensures { (decl : Declaration) (front : Front) (number : ℕ) (answer : Option Answer)
        → KeepsLives (lives_of front.transaction) (lives_of (takes decl front number answer).front.transaction)
        (asked_at front number) answer }
{}

/// The clock never falls, and passes that of each grant that counts (Lamport
/// 1978). The known epoch never falls, and passes each closed one that counts.
pub fn clocks_pass_grants()
    ensures answers { (decl : Declaration) (front : Front) (number : ℕ) (answer : Option Answer)
        → Learns front (takes decl front number answer).front (asked_at front number) answer }
    ensures clock { (decl : Declaration) (front : Front) (command : Command)
        → (called decl front command).front.clock ≡ front.clock }
    ensures epoch { (decl : Declaration) (front : Front) (command : Command)
        → (called decl front command).front.epoch ≡ front.epoch }
    ensures ended { (front : Front) (clock epoch : ℕ) → (front.clock.value ≤ (ended front clock epoch).clock.value)
        × (front.epoch ≤ (ended front clock epoch).epoch) }
{}

/// A command begins one transaction at most, and nothing else does.
pub fn counts_rise_by_one()
    ensures commands { (decl : Declaration) (front : Front) (command : Command)
        → (called decl front command).front.count ≤ front.count + 1 }
    ensures answers { (decl : Declaration) (front : Front) (number : ℕ) (answer : Option Answer)
        → (takes decl front number answer).front.count ≡ front.count }
{}
