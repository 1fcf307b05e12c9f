ghost use Rattle.std.specs.Prelude.{◌≡◌, option_map, IfOk, IfErr};
ghost use Rattle.scx_isa_semantics.specs.Callbacks.{at, with_at, none, Answer, Answers, Made, Failed, FirstFailed};

use crate::callbacks::{CALLBACKS, Callback};

/// One value for each callback of a policy.
#[derive(Drop)]
pub struct PerCallback<T> {
    pub init: T,
    pub enable: T,
    pub select_cpu: T,
    pub enqueue: T,
    pub dispatch: T,
    pub running: T,
    pub stopping: T,
    pub tick: T,
    pub dequeue: T,
    pub runnable: T,
    pub quiescent: T,
    pub update_idle: T,
    pub set_weight: T,
    pub timer: T,
}

impl<T> PerCallback<Option<T>> {
    /// No value for any callback.
    pub fn none() -> PerCallback<Option<T>>
        ensures { result ≡ none }
    {
        PerCallback {
            init: None,
            enable: None,
            select_cpu: None,
            enqueue: None,
            dispatch: None,
            running: None,
            stopping: None,
            tick: None,
            dequeue: None,
            runnable: None,
            quiescent: None,
            update_idle: None,
            set_weight: None,
            timer: None,
        }
    }

    /// The value of one callback, if there is one. A plain program has none.
    pub fn get(&self, callback: Callback) -> Option<&T>
        ensures { option_map (λ x. x.now) result ≡ at self.now callback }
    {
        match callback {
            Callback::Plain => None,
            Callback::Init => self.init.as_ref(),
            Callback::Enable => self.enable.as_ref(),
            Callback::SelectCpu => self.select_cpu.as_ref(),
            Callback::Enqueue => self.enqueue.as_ref(),
            Callback::Dispatch => self.dispatch.as_ref(),
            Callback::Running => self.running.as_ref(),
            Callback::Stopping => self.stopping.as_ref(),
            Callback::Tick => self.tick.as_ref(),
            Callback::Dequeue => self.dequeue.as_ref(),
            Callback::Runnable => self.runnable.as_ref(),
            Callback::Quiescent => self.quiescent.as_ref(),
            Callback::UpdateIdle => self.update_idle.as_ref(),
            Callback::SetWeight => self.set_weight.as_ref(),
            Callback::Timer => self.timer.as_ref(),
        }
    }

    /// True if each value that is there passes the test.
    pub fn all<F: Fn(Callback, &T) -> bool>(&self, test: F) -> bool
        requires { F.IsAlwaysCallable test }
        ensures { Answers F.Fn test self.now result }
    {
        for callback in CALLBACKS {
            if !self.passes(callback, &test) {
                return false;
            }
        }
        true
    }

    /// True if the value of one callback passes the test, or isn't there.
    fn passes<F: Fn(Callback, &T) -> bool>(&self, callback: Callback, test: &F) -> bool
        requires { F.IsAlwaysCallable test.now }
        ensures { Answer F.Fn test.now callback (at self.now callback) result }
    {
        match self.get(callback) {
            Some(value) => test(callback, value),
            None => true,
        }
    }
}

impl<T: Drop> PerCallback<Option<T>> {
    /// Takes that of one callback out.
    pub fn take(&mut self, callback: Callback) -> Option<T>
        ensures taken { result ≡ at self.old callback }
        ensures rest { self.new ≡ with_at self.old callback None }
    {
        match callback {
            Callback::Plain => None,
            Callback::Init => self.init.take(),
            Callback::Enable => self.enable.take(),
            Callback::SelectCpu => self.select_cpu.take(),
            Callback::Enqueue => self.enqueue.take(),
            Callback::Dispatch => self.dispatch.take(),
            Callback::Running => self.running.take(),
            Callback::Stopping => self.stopping.take(),
            Callback::Tick => self.tick.take(),
            Callback::Dequeue => self.dequeue.take(),
            Callback::Runnable => self.runnable.take(),
            Callback::Quiescent => self.quiescent.take(),
            Callback::UpdateIdle => self.update_idle.take(),
            Callback::SetWeight => self.set_weight.take(),
            Callback::Timer => self.timer.take(),
        }
    }

    /// Sets that of one callback. A plain program has none, and nothing is set.
    pub fn set(&mut self, callback: Callback, value: Option<T>)
        ensures { self.new ≡ with_at self.old callback value }
    {
        match callback {
            Callback::Plain => drop(value),
            Callback::Init => self.init = value,
            Callback::Enable => self.enable = value,
            Callback::SelectCpu => self.select_cpu = value,
            Callback::Enqueue => self.enqueue = value,
            Callback::Dispatch => self.dispatch = value,
            Callback::Running => self.running = value,
            Callback::Stopping => self.stopping = value,
            Callback::Tick => self.tick = value,
            Callback::Dequeue => self.dequeue = value,
            Callback::Runnable => self.runnable = value,
            Callback::Quiescent => self.quiescent = value,
            Callback::UpdateIdle => self.update_idle = value,
            Callback::SetWeight => self.set_weight = value,
            Callback::Timer => self.timer = value,
        }
    }

    /// Applies the function to each value that is there, in their order, up to the first failure.
    pub fn try_map<U: Drop, E, F: Fn(Callback, T) -> Result<U, E>>(
        self,
        f: &F,
    ) -> Result<PerCallback<Option<U>>, E>
        requires { F.IsAlwaysCallable f.now }
        ensures made { IfOk result
            (λ made. (b : _) → Made F.Fn f.now b (at self b) (at made b)) }
        ensures failed { IfErr result (FirstFailed F.Fn f.now self) }
    {
        let mut values = self;
        let mut made = PerCallback::none();
        let outcome = values.make_each(&mut made, f);
        drop(values);
        match outcome {
            Ok(()) => Ok(made),
            Err(error) => Err(error),
        }
    }

    /// Takes each value out, in their order, and sets what the function makes of it, up to the first failure.
    fn make_each<U: Drop, E, F: Fn(Callback, T) -> Result<U, E>>(
        &mut self,
        all_made: &mut PerCallback<Option<U>>,
        f: &F,
    ) -> Result<(), E>
        requires { F.IsAlwaysCallable f.now }
        ensures made { IfOk result
            (λ _. (b : _) → Made F.Fn f.now b (at self.old b) (at all_made.new b)) }
        ensures failed { IfErr result (FirstFailed F.Fn f.now self.old) }
    {
        for callback in CALLBACKS {
            let value = made(callback, self.take(callback), f)?;
            all_made.set(callback, value);
        }
        Ok(())
    }
}

/// Applies the function to the value of a callback, if it is there.
fn made<T: Drop, U: Drop, E, F: Fn(Callback, T) -> Result<U, E>>(
    callback: Callback,
    value: Option<T>,
    f: &F,
) -> Result<Option<U>, E>
    requires { F.IsAlwaysCallable f.now }
    ensures made { IfOk result (Made F.Fn f.now callback value) }
    ensures failed { IfErr result (Failed F.Fn f.now callback value) }
{
    match value {
        Some(value) => match f(callback, value) {
            Ok(made) => Ok(Some(made)),
            Err(error) => Err(error),
        },
        None => Ok(None),
    }
}
