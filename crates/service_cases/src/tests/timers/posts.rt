//! Who leaves, and who comes back.
ghost use Rattle.std.specs.Prelude.{◌≡◌};

use super::stage::{boot, open};
use co_service::Name;
use co_timers::{Posts, Timers, TimersFresh};
use std::alloc::Global;
use std::marker::Brand;
use std::process::Abort;
use std::sync::Wait;

/// Who leaves.
enum Post {
    Client(u32),
    /// With its interrupt.
    Cpu(u32),
    Interrupt(u32),
    /// Without its interrupt.
    CpuAlone(u32),
}

/// Each post is left once, and there are no others. Where an interrupt has left, its CPU leaves alone.
static LEFT: [(Post, bool); 9] = [
    (Post::Client(0), true),
    (Post::Client(0), false),
    (Post::Client(2), false),
    (Post::Cpu(0), true),
    (Post::Cpu(0), false),
    (Post::Cpu(2), false),
    (Post::Interrupt(1), true),
    (Post::Cpu(1), false),
    (Post::CpuAlone(1), true),
];

/// Whether somebody leaves.
fn is_some<T: Drop>(left: Option<T>) -> bool {
    left.is_some()
}

/// Whether the end of a service ends it.
fn is_ok<T: Drop, E: Drop>(ended: Result<T, E>) -> bool {
    ended.is_ok()
}

/// Whether a post is left.
fn is_left<N: Name>(timers: &Timers<N>, posts: &mut Posts<N>, post: &Post) -> bool
    requires { timers.now.params ≡ posts.old.params }
    ensures { posts.new.params ≡ posts.old.params }
{
    match *post {
        Post::Client(k) => is_some(posts.client(timers, k)),
        Post::Cpu(k) => is_some(posts.cpu_handle(timers, k)),
        Post::Interrupt(k) => is_some(posts.interrupt(timers, k)),
        Post::CpuAlone(k) => is_some(posts.cpu(timers, k)),
    }
}

/// Whether each post is left once.
fn each_leaves<N: Name>(timers: &Timers<N>, posts: &mut Posts<N>) -> bool
    requires { timers.now.params ≡ posts.old.params }
    ensures { posts.new.params ≡ posts.old.params }
{
    let mut once = true;
    for (post, leaves) in &LEFT {
        if is_left(timers, posts, post) != *leaves {
            once = false;
        }
    }
    once
}

/// All leave and come back: whether the first CPU was, and all are missed until the last.
fn all_leave<N: Name, R: Abort>(rt: &R, timers: &Timers<N>, posts: &mut Posts<N>) -> bool
    requires { timers.now.params ≡ posts.old.params }
    ensures { posts.new.params ≡ posts.old.params }
{
    let one = posts.client(timers, 0).expect(rt, "client 0 is here");
    let other = posts.client(timers, 1).expect(rt, "client 1 is here");
    let first = posts.cpu_handle(timers, 0).expect(rt, "CPU 0 is here");
    let second = posts.cpu_handle(timers, 1).expect(rt, "CPU 1 is here");
    let is_first = first.number() == 0;
    posts.client_back(one);
    posts.client_back(other);
    posts.cpu_back(second);
    let missed = !posts.all_back();
    posts.cpu_back(first);
    is_first && missed && posts.all_back()
}

/// Whether all posts are left and returned as they have to be, or each is left once. The service ends only where all return.
fn play<N: Name, R: Wait + Sync + Abort>(
    rt: &R,
    alloc: Global,
    fresh: TimersFresh,
    all_return: bool,
) -> bool
    requires { fresh.name ≡ N.name }
{
    let (timers, mut posts) = open::<N, R>(rt, alloc, fresh);
    let right = if all_return {
        all_leave(rt, &timers, &mut posts)
    } else {
        each_leaves(&timers, &mut posts)
    };
    right & (is_ok(timers.close(rt, posts)) == all_return)
}

/// Who left doesn't leave again, and the end needs all.
#[test]
fn posts(rt: HostRuntime) {
    for all_return in [false, true] {
        let fresh = boot(&rt, rt.alloc());
        assert!(rt; play::<Brand, _>(&rt, rt.alloc(), fresh, all_return));
    }
}
