// Whether a tape is legal: the machine's side of the definitions of the same names.
ghost use Rattle.std.specs.Prelude.{◌≡◌, ◌<◌, ◌≤◌, ◌+◌, ◌-◌, ◌^◌, ◌↔◌, if◌then◌else◌, true, Some, IsTrue, IfOk, OnOk, slice_get, length};
ghost use Rattle.std.specs.Option.{option_copied};
ghost use Rattle.ctr_model.specs.State.{transaction_of};
ghost use Rattle.ctr_model.specs.Tape.{statement_of, statements_of, progress_of, acts_of, goes_on, advanced, IsInTurn, Allowed, IsActOf, IsRelease, Comes, passed_by, passed, Legal, final};
ghost use Rattle.ctr_model.specs.Reply.{MayStandFor};
ghost use Rattle.ctr_machine.specs.Follow.{HasStatementNumber};

use crate::next::next_state;
use crate::refusals::has_name;
use crate::reply::reply_of;
use ctr_model::{CATALOG_ENTRIES, MOST_PAGES, Point, Progress, State};
use ctr_types::{Act, Entry, Line, OutOfMemory, Plain, Refusal, Reply, Statement};
use std::alloc::Global;

// A session's statement of a number from 0.
fn statement_at(lines: &[Line], session: u8, number: u64) -> Option<&Statement>
    ensures { option_copied result ≡ slice_get (statements_of session lines.now) number }
{
    let (first, rest) = lines.split_first()?;
    if first.session != session {
        return statement_at(rest, session, number);
    }
    if number == 0 {
        return Some(&first.statement);
    }
    statement_at(rest, session, number - 1)
}

// A session's statement of a number from 1.
fn statement_of(lines: &[Line], session: u8, number: u64) -> Option<&Statement>
    ensures { option_copied result ≡ statement_of lines.now session number }
{
    if number == 0 {
        return None;
    }
    statement_at(lines, session, number - 1)
}

fn progress_of(point: &Point, session: u8) -> Progress
    ensures { result ≡ progress_of point.now session }
{
    match point.progress.get(&session) {
        Some(progress) => *progress,
        None => Progress {
            finished: 0,
            made: 0,
        },
    }
}

// Whether the act is the one of this place of the statement, which is the same at every state.
fn is_act_at(_state: &State, _session: u8, statement: &Statement, made: u64, act: &Act) -> bool
    ensures { IsTrue result ↔ (slice_get (acts_of _state.now _session statement.now) made ≡ Some act.now) }
{
    match (statement, made, act) {
        (Statement::Begin, 0, Act::Begin) => true,
        (Statement::Commit, 0, Act::Ask) => true,
        (Statement::Commit, 1, Act::Answer) => true,
        (Statement::Rollback, 0, Act::Rollback) => true,
        (Statement::Select { .. }, 0, Act::Read) => true,
        (Statement::Create { .. }, 0, Act::Lock) => true,
        (Statement::Create { .. }, 1, Act::Write) => true,
        (Statement::DropTable { .. }, 0, Act::Lock) => true,
        (Statement::DropTable { .. }, 1, Act::Write) => true,
        (Statement::Insert { .. }, 0, Act::Lock) => true,
        (Statement::Insert { .. }, 1, Act::Write) => true,
        (Statement::Update { .. }, 0, Act::Lock) => true,
        (Statement::Update { .. }, 1, Act::Write) => true,
        (Statement::Delete { .. }, 0, Act::Lock) => true,
        (Statement::Delete { .. }, 1, Act::Write) => true,
        _ => false,
    }
}

// Whether a commit is answered in its order, to the session that asked.
fn is_in_turn(state: &State, session: u8, act: &Act) -> bool
    requires { state.now.answered < 2 ^ 64 - 1 }
    ensures { IsTrue result ↔ IsInTurn state.now session act.now }
{
    if !matches!(act, Act::Answer) {
        return true;
    }
    match state.sessions.get(&session) {
        Some(me) => me.asked == Some(state.answered + 1),
        None => false,
    }
}

// Whether one of the three free replies stands for this one.
fn may_stand_for(statement: &Statement, reply: &Reply, given: &Reply) -> bool
    ensures { IsTrue result ↔ MayStandFor statement.now reply.now given.now }
{
    match reply {
        Reply::Began { .. } | Reply::Granted | Reply::Rows { .. } => is_refused(
            given,
            Refusal::OutOfMemory,
        ),
        Reply::Done => match statement {
            Statement::Create { .. } => is_refused(
                given,
                Refusal::CatalogFull {
                    limit: CATALOG_ENTRIES,
                },
            ),
            Statement::Insert { .. } | Statement::Update { .. } | Statement::Delete { .. } => {
                is_refused(given, Refusal::Full { limit: MOST_PAGES })
            }
            Statement::Begin | Statement::Commit | Statement::Rollback => false,
            Statement::DropTable { .. } | Statement::Select { .. } => false,
        },
        Reply::Asked { .. } | Reply::ReadOnly | Reply::Answered { .. } => false,
        Reply::RolledBack | Reply::Released | Reply::Refused { .. } => false,
    }
}

fn is_refused(given: &Reply, why: Refusal) -> bool
    ensures { IsTrue result ↔ (given.now ≡ Reply.Refused why) }
{
    match given {
        Reply::Refused { refusal } => refusal.same(&why),
        _ => false,
    }
}

fn is_allowed(
    alloc: Global,
    state: &State,
    statement: &Statement,
    entry: &Entry,
) -> Result<bool, OutOfMemory>
    requires { state.now.answered < 2 ^ 64 - 1 }
    ensures { IfOk result (λ yes. IsTrue yes ↔ Allowed state.now entry.now.session entry.now.act statement.now entry.now.reply) }
{
    let reply = reply_of(alloc, state, Some(statement), entry)?;
    Ok(entry.reply.same(&reply) || may_stand_for(statement, &reply, &entry.reply))
}

fn is_act_of(
    alloc: Global,
    point: &Point,
    statement: &Statement,
    entry: &Entry,
) -> Result<bool, OutOfMemory>
    requires { point.now.state.answered < 2 ^ 64 - 1 }
    ensures { IfOk result (λ yes. IsTrue yes ↔ IsActOf statement.now point.now entry.now) }
{
    let progress = progress_of(point, entry.session);
    if entry.statement == 0 || entry.statement - 1 != progress.finished {
        return Ok(false);
    }
    if !is_act_at(
        &point.state,
        entry.session,
        statement,
        progress.made,
        &entry.act,
    ) {
        return Ok(false);
    }
    if !is_in_turn(&point.state, entry.session, &entry.act) {
        return Ok(false);
    }
    is_allowed(alloc, &point.state, statement, entry)
}

fn is_release(point: &Point, entry: &Entry) -> bool
    ensures { IsTrue result ↔ IsRelease point.now entry.now }
{
    let Act::Release { name } = &entry.act else {
        return false;
    };
    entry.session == 0
        && entry.statement == 0
        && entry.reply.same(&Reply::Released)
        && has_name(name, point.state.stuck.as_slice())
}

// Whether the entry may come at this point.
fn comes(alloc: Global, lines: &[Line], point: &Point, entry: &Entry) -> Result<bool, OutOfMemory>
    requires { point.now.state.answered < 2 ^ 64 - 1 }
    ensures { IfOk result (λ yes. IsTrue yes ↔ Comes lines.now point.now entry.now) }
{
    if entry.moment < point.moment {
        return Ok(false);
    }
    if is_release(point, entry) {
        return Ok(true);
    }
    match statement_of(lines, entry.session, entry.statement) {
        Some(statement) => is_act_of(alloc, point, statement, entry),
        None => Ok(false),
    }
}

fn goes_on(reply: &Reply) -> bool
    ensures { result ≡ goes_on reply.now }
{
    !matches!(reply, Reply::Refused { .. } | Reply::ReadOnly)
}

fn has_two_acts(_state: &State, _session: u8, statement: &Statement) -> bool
    ensures { length (acts_of _state.now _session statement.now) ≡ (if result then 2 else 1) }
{
    !matches!(
        statement,
        Statement::Begin | Statement::Rollback | Statement::Select { .. }
    )
}

// One act more, or the statement is finished.
fn advanced(
    state: &State,
    session: u8,
    statement: &Statement,
    reply: &Reply,
    progress: Progress,
) -> Progress
    requires { progress.finished < 2 ^ 64 - 1 }
    ensures { result ≡ advanced (acts_of state.now session statement.now) reply.now progress }
{
    if goes_on(reply) && progress.made == 0 && has_two_acts(state, session, statement) {
        return Progress {
            finished: progress.finished,
            made: 1,
        };
    }
    Progress {
        finished: progress.finished + 1,
        made: 0,
    }
}

// Goes on to the point after an entry.
fn pass(alloc: Global, lines: &[Line], point: &mut Point, entry: &Entry) -> Result<(), OutOfMemory>
    requires answered { point.old.state.answered < 2 ^ 64 - 1 }
    requires finished { HasStatementNumber lines.now point.old entry.now }
    ensures { OnOk result (point.new ≡ passed lines.now point.old entry.now) }
{
    let statement = statement_of(lines, entry.session, entry.statement);
    let progress = progress_of(point, entry.session);
    if let Some(statement) = statement {
        let next = advanced(
            &point.state,
            entry.session,
            statement,
            &entry.reply,
            progress,
        );
        point.progress.put(entry.session, next)?;
    }
    next_state(alloc, &mut point.state, statement, entry)?;
    point.moment = entry.moment;
    Ok(())
}

// An entry's number has 64 bits, which a caller knows only by a clause.
fn number_of(entry: &Entry) -> u64
    ensures value { result ≡ entry.now.statement }
    ensures fits { entry.now.statement < 2 ^ 64 }
{
    entry.statement
}

/// Whether the entries are a legal tape of the script's lines from this point on, and goes on to
/// the point after them. Where it answers no or memory is refused, the point is of no more use.
pub fn is_legal(
    alloc: Global,
    lines: &[Line],
    point: &mut Point,
    entries: &[Entry],
) -> Result<bool, OutOfMemory>
    requires { point.old.state.answered + length entries.now < 2 ^ 64 - 1 }
    ensures answer { IfOk result (λ yes. IsTrue yes ↔ Legal lines.now point.old entries.now) }
    ensures point { IfOk result (λ yes. IsTrue yes → point.new ≡ final lines.now point.old entries.now) }
{
    let Some((first, rest)) = entries.split_first() else {
        return Ok(true);
    };
    let _number = number_of(first);
    if !comes(alloc, lines, point, first)? {
        return Ok(false);
    }
    pass(alloc, lines, point, first)?;
    is_legal(alloc, lines, point, rest)
}
