//! Which worker owns which lanes. A lane has one owner for the whole run.
ghost use Rattle.std.specs.Prelude.{◌≡◌, ℕ, ◌≤◌, ◌<◌, ◌^◌, ◌+◌, ◌-◌, ◌*◌, ◌/◌, length, slice_index};
ghost use Rattle.fd_crew.specs.Teams.{IsTeam, owned_below};

use crate::crew::MOST_WORKERS;

/// Neighbouring workers of a crew, and where the lanes begin that they own together.
#[derive(Clone, Copy)]
pub struct Team<'a> {
    pub first_lane: usize,
    pub first_worker: u32,
    pub workers: u32,
    /// The lane at which each worker of the crew is to begin. Where there is none for a worker, the lanes are shared out evenly.
    pub firsts: &'a [usize],
}

/// The lane at which each of so many workers begins where they share out these lanes evenly: `worker * lanes / workers`. What stands behind them is 0.
pub fn even_firsts(lanes: usize, workers: u32) -> [usize; MOST_WORKERS as usize]
    requires workers { (1 ≤ workers) × (workers ≤ 64) }
    ensures firsts { (worker : ℕ) → worker < workers → slice_index result worker ≡ worker * lanes / workers }
    ensures counted { length result ≡ 64 }
{
    let mut firsts = [0; MOST_WORKERS as usize];
    for worker in 0..workers {
        firsts[worker as usize] = even_share(lanes, workers, worker);
    }
    firsts
}

impl<'a> Team<'a> {
    /// The whole crew.
    pub fn whole(workers: u32, firsts: &'a [usize]) -> Team<'a>
        requires workers { (1 ≤ workers) × (workers ≤ 64) }
        ensures first { result.first_lane ≡ 0 }
        ensures workers { result.workers ≡ workers }
        ensures team { IsTeam result }
    {
        Team {
            first_lane: 0,
            first_worker: 0,
            workers,
            firsts,
        }
    }

    /// The first half of the workers, and the others, which begin among these lanes of the team, or behind the last of them.
    pub fn halves(&self, lanes: usize) -> (Team<'a>, Team<'a>)
        requires team { IsTeam self.now }
        requires two { 2 ≤ self.now.workers }
        requires room { self.now.first_lane + lanes < 2 ^ 64 }
        ensures teams { IsTeam result.0 × IsTeam result.1 }
        ensures workers { (result.0.workers ≡ self.now.workers / 2) × (result.1.workers ≡ self.now.workers - self.now.workers / 2) }
        ensures lower { (result.0.first_lane ≡ self.now.first_lane) × (result.0.first_worker ≡ self.now.first_worker) × (result.0.firsts ≡ self.now.firsts) }
        ensures middle { (result.1.first_worker ≡ self.now.first_worker + self.now.workers / 2) × (result.1.firsts ≡ self.now.firsts) }
        ensures begins { result.1.first_lane ≡ self.now.first_lane + owned_below self.now lanes }
        ensures upper { (self.now.first_lane ≤ result.1.first_lane) × (result.1.first_lane ≤ self.now.first_lane + lanes) }
    {
        let half = self.workers / 2;
        let middle = self.first_worker + half;
        let owned = match self.firsts.get(middle as usize) {
            Some(first) => first.saturating_sub(self.first_lane).min(lanes),
            None => even_share(lanes, self.workers, half),
        };
        let lower = Team {
            workers: half,
            ..*self
        };
        let upper = Team {
            first_lane: self.first_lane + owned,
            first_worker: middle,
            workers: self.workers - half,
            ..*self
        };
        (lower, upper)
    }
}

/// How many of these lanes the first `count` of so many workers own where each of them owns as many as any other, or one more: `count * lanes / workers`,
/// computed from quotient and remainder, since the product may not fit.
fn even_share(lanes: usize, workers: u32, count: u32) -> usize
    requires some { 0 < workers }
    requires count { count ≤ workers }
    ensures value { result ≡ count * lanes / workers }
    ensures within { result ≤ lanes }
{
    let workers = workers as usize;
    let count = count as usize;
    lanes / workers * count + lanes % workers * count / workers
}
