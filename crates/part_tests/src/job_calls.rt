//! Calls of jobs that share one table of keys. What they answer was worked out by hand; the digests of the ops are
//! Python's hashlib's.

use super::build::{digest_of, digests, load};
use farm_base::Key;
use jobs::{Answer, Cause, Fault, JobId, Jobs};
use std::alloc::{AllocError, Global};
use std::test::Fail;

/// What is submitted.
#[derive(Clone, Copy)]
enum Source {
    Plain,
    Spelled,
    Diamond,
    Later,
}

/// The definition in hexadecimal.
fn digits(source: Source) -> &'static str {
    match source {
        // The op `1a00`, an exec op on its output 0, and the result.
        Source::Plain =>
            "0a021a000a570a490a477368613235363a66646262363666393761663034346534623838623062623061343738396638663031346639386235336635666531313130326264313966343564353363343562120a0a030a017812031a012f0a4b0a490a477368613235363a38326435336137316339623639643131626266326630323939393130393534643763363133303734386133323933313166373066633438316332346536303137",
        // The same, where the exec op's input has its index 0 written as `10 00`.
        Source::Spelled =>
            "0a021a000a590a4b0a477368613235363a666462623636663937616630343465346238386230626230613437383966386630313466393862353366356665313131303262643139663435643533633435621000120a0a030a017812031a012f0a4b0a490a477368613235363a66363966313537303762343062353965336539633334313133353732376139333766663339333065356130623030303733386135323736616133666135623431",
        // The op `1a00`, two exec ops on its output 0, an exec op on the outputs 0 of both, and the result.
        Source::Diamond =>
            "0a021a000a570a490a477368613235363a66646262363666393761663034346534623838623062623061343738396638663031346639386235336635666531313130326264313966343564353363343562120a0a030a017812031a012f0a570a490a477368613235363a66646262363666393761663034346534623838623062623061343738396638663031346639386235336635666531313130326264313966343564353363343562120a0a030a017912031a012f0aaa010a490a477368613235363a383264353361373163396236396431316262663266303239393931303935346437633631333037343861333239333131663730666334383163323465363031370a490a477368613235363a3962666230656636353265323836623835636661343439353362633965333435343463663938303231333734393266663431336334656533303031633265376312120a030a017a12031a012f120608011a022f630a4b0a490a477368613235363a35346662656434376166666233373432626132346562623339636463656363373832333961643861343066613035336261353336623432396462633766613837",
        // The op `1a030a0161`, and the result.
        Source::Later =>
            "0a051a030a01610a4b0a490a477368613235363a31306332323038316338323533333537343562376665626466336430353361363732666334616364396131656635366362613264353362613033623738303562",
    }
}

/// A call with its answer. Keys are named by their places in the order of submission, digests by one byte.
#[derive(Clone, Copy)]
enum Call {
    Submit(Source, usize),
    /// A key is handed out, with its first input.
    Take(usize, Option<u8>),
    TakeNone,
    /// And whether the key was being solved.
    Done(usize, u8, bool),
    Failed(usize),
    Answer(usize, Option<u8>),
    Fails(usize),
}

/// Two jobs share the keys of both vertices, and a third comes when all is done. Behind each call the keys that are ready then.
const SHARED: [(Call, &[usize]); 13] = [
    (Call::Submit(Source::Plain, 0), &[0]),
    (Call::Submit(Source::Spelled, 1), &[0]),
    (Call::Take(0, None), &[]),
    (Call::TakeNone, &[]),
    (Call::Done(0, 10, true), &[1]),
    (Call::Take(1, Some(10)), &[]),
    (Call::TakeNone, &[]),
    (Call::Answer(0, None), &[]),
    (Call::Done(1, 11, true), &[]),
    (Call::Answer(0, Some(11)), &[]),
    (Call::Answer(1, Some(11)), &[]),
    (Call::Done(1, 12, false), &[]),
    (Call::Submit(Source::Plain, 2), &[]),
];

/// One input of a diamond fails. A later job is beside it.
const KEPT: [(Call, &[usize]); 13] = [
    (Call::Submit(Source::Diamond, 0), &[0]),
    (Call::Submit(Source::Later, 1), &[0, 4]),
    (Call::Take(0, None), &[4]),
    (Call::Done(0, 10, true), &[1, 2, 4]),
    (Call::Take(1, Some(10)), &[2, 4]),
    (Call::Failed(1), &[2, 4]),
    (Call::Fails(0), &[2, 4]),
    (Call::Take(2, Some(10)), &[4]),
    (Call::Done(2, 12, true), &[4]),
    (Call::Submit(Source::Diamond, 2), &[4]),
    (Call::Take(4, None), &[]),
    (Call::TakeNone, &[]),
    (Call::Fails(2), &[]),
];

/// A table of jobs, and the keys that were submitted.
#[derive(Drop)]
struct Play {
    jobs: Jobs,
    keys: Vec<Key>,
}

impl Play {
    fn submit(&mut self, alloc: Global, source: Source) -> Result<JobId, Fail> {
        let bytes = hex::decode(alloc, digits(source))?;
        let graph = load(alloc, bytes)?;
        let keys = solverkeys::keys(alloc, &graph)?;
        self.note(keys.as_slice())?;
        Ok(self.jobs.submit(alloc, &graph, keys.as_slice())?)
    }

    /// Notes the keys that were submitted first now.
    fn note(&mut self, keys: &[Key]) -> Result<(), AllocError> {
        for key in keys {
            if !self.keys.contains(key) {
                self.keys.push(*key)?;
            }
        }
        Ok(())
    }

    /// Whether this key is handed out with this input.
    fn takes(&mut self, alloc: Global, place: usize, input: Option<u8>) -> Result<bool, Fail> {
        let Some(task) = self.jobs.take_ready(alloc)? else {
            return Ok(false);
        };
        let digest = input.map(digest_of);
        Ok(self.keys.get(place) == Some(&task.key) && task.inputs.first() == digest.as_ref())
    }

    /// Whether a key that is done was being solved.
    fn ends(&mut self, alloc: Global, place: usize, byte: u8) -> Result<bool, Fail> {
        let key = *self.keys.get(place).ok_or("no such key")?;
        let outputs = digests(alloc, &[byte])?;
        Ok(self.jobs.done(key, outputs).is_ok())
    }

    /// Whether a key that failed was being solved.
    fn fails(&mut self, place: usize) -> bool {
        match self.keys.get(place) {
            Some(key) => self.jobs.failed(*key, Fault::Exit(7)).is_ok(),
            None => false,
        }
    }

    /// Whether a call is answered so.
    fn is_so(&mut self, alloc: Global, call: Call) -> Result<bool, Fail> {
        Ok(match call {
            Call::Submit(source, job) => self.submit(alloc, source)? == JobId(job),
            Call::Take(place, input) => self.takes(alloc, place, input)?,
            Call::TakeNone => self.jobs.take_ready(alloc)?.is_none(),
            Call::Done(place, byte, was_out) => self.ends(alloc, place, byte)? == was_out,
            Call::Failed(place) => self.fails(place),
            Call::Fails(job) => self.jobs.answer(JobId(job)) == Ok(Answer::Failed),
            Call::Answer(job, output) => self.jobs.answer(JobId(job)) == Ok(answer_of(output)),
        })
    }

    /// Whether these keys are ready, and no others.
    fn are_ready(&self, places: &[usize]) -> bool {
        let ready = self.jobs.ready();
        for (key, place) in ready.iter().zip(places) {
            if self.keys.get(*place) != Some(key) {
                return false;
            }
        }
        ready.len() == places.len()
    }

    /// Why the last job of `KEPT` has no output, and what is needed of the key that failed.
    fn is_told(&self, alloc: Global) -> Result<bool, Fail> {
        let key = self.keys.get(1).ok_or("no such key")?;
        let cause = self.jobs.cause(alloc, JobId(2))?;
        Ok(
            cause == Some(Cause::Failed(*key, Fault::Exit(7)))
                && self.jobs.last_output_needed(key) == Some(0),
        )
    }
}

/// The answer of a job that has this output, or waits.
fn answer_of(output: Option<u8>) -> Answer {
    match output {
        Some(byte) => Answer::Output(digest_of(byte)),
        None => Answer::Waiting,
    }
}

/// The jobs after these calls, in a box: letting go of them is one step of a proof. Fails where one is answered otherwise.
fn played(alloc: Global, rows: &[(Call, &[usize])]) -> Result<Box<Play>, Fail> {
    let play = Play {
        jobs: Jobs::new(alloc),
        keys: Vec::new(alloc),
    };
    let mut play = Box::new(alloc, play)?;
    for (call, ready) in rows {
        if !play.is_so(alloc, *call)? || !play.are_ready(*ready) {
            return Err("another answer".into());
        }
    }
    Ok(play)
}

#[test]
fn jobs_share_keys(rt: HostRuntime) -> Result<(), Fail> {
    let _play = played(rt.alloc(), &SHARED)?;
    Ok(())
}

#[test]
fn an_input_fails(rt: HostRuntime) -> Result<(), Fail> {
    let play = played(rt.alloc(), &KEPT)?;
    assert!(rt; play.is_told(rt.alloc())?);
    Ok(())
}
