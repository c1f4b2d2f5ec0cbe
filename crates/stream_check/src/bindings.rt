//! Which instance each stream and each memory is bound to, computed in one pass over the instances.
ghost use Rattle.std.specs.Prelude.{◌≡◌, ◌<◌, ◌+◌, ◌++◌, [], ℕ, IfOk, length, map, get_or, slice_get, if◌then◌else◌, ◌==◌, List, true, false};
ghost use Rattle.tapa_syntax.specs.Flat.{FlatInstance, flat_instance};
ghost use Rattle.check_scope.specs.Answers.{ScopeAnswers};
ghost use Rattle.check_upper.specs.Tasks as table;
ghost use Rattle.check_upper.specs.Views.{task_view};
ghost use Rattle.check_scope.specs.Users.{users_of, with_user, with_users};
ghost use Rattle.check_scope.specs.declared.users.Users.{Users as Among};
ghost use Rattle.stream_check.specs.Programs as program;

use check_scope::{
    CheckCode, CheckFault, UserTable, Users, copied, next_number, number_of, refused,
};
use check_upper::{Body, Channel, Task};
use std::alloc::Global;
use tapa_syntax::{End, Instance, Memory, Parameter, Stream};

/// The stream parameters of the leaf of a number.
fn ends_at<'t>(tasks: &'t [Task], number: u32) -> &'t [End]
    ensures { result.now ≡ program.ends_of (slice_get (map task_view tasks.now) number) }
{
    match tasks.get(number as usize) {
        Some(task) => match &task.body {
            Body::Leaf(leaf) => &leaf.streams,
            Body::Upper { .. } => &[],
        },
        None => &[],
    }
}

/// The instances that write each stream of a program, and those that read it.
#[derive(Drop)]
struct StreamUsers {
    writers: UserTable,
    readers: UserTable,
}

impl StreamUsers {
    /// Adds an instance to the stream of one of its parameters, at the side that the parameter names.
    fn add_port(&mut self, instance: u32, stream: u32, end: End)
        ensures writers { length self.new.writers.rows.items ≡ length self.old.writers.rows.items }
        ensures readers { length self.new.readers.rows.items ≡ length self.old.readers.rows.items }
        ensures written { (s : ℕ) (d : Among) → s < length self.old.writers.rows.items
            → get_or self.new.writers.rows.items s d ≡
            (if end.writes then (if stream == s then with_user
            (get_or self.old.writers.rows.items s d) instance else get_or self.old.writers.rows.items s d) else get_or self.old.writers.rows.items s d) }
        ensures read { (s : ℕ) (d : Among) → s < length self.old.readers.rows.items
            → get_or self.new.readers.rows.items s d ≡
            (if end.writes then get_or self.old.readers.rows.items s d else
            (if stream == s then with_user (get_or self.old.readers.rows.items s d) instance else get_or self.old.readers.rows.items s d)) }
    {
        if end.writes {
            self.writers.add(stream, instance);
        } else {
            self.readers.add(stream, instance);
        }
    }

    /// Adds an instance once for each of its parameters that is bound to a stream.
    fn add_ports(&mut self, instance: u32, streams: &[u32], ends: &[End])
        ensures writers { length self.new.writers.rows.items ≡ length self.old.writers.rows.items }
        ensures readers { length self.new.readers.rows.items ≡ length self.old.readers.rows.items }
        ensures written { (s : ℕ) (d : Among) → s < length self.old.writers.rows.items
            → get_or self.new.writers.rows.items s d ≡ with_users (get_or self.old.writers.rows.items s d) (program.bound_ends instance s true streams.now ends.now) }
        ensures read { (s : ℕ) (d : Among) → s < length self.old.readers.rows.items
            → get_or self.new.readers.rows.items s d ≡ with_users (get_or self.old.readers.rows.items s d) (program.bound_ends instance s false streams.now ends.now) }
    {
        for (position, stream) in streams.iter().enumerate() {
            if position >= ends.len() {
                return;
            }
            self.add_port(instance, *stream, ends[position]);
        }
    }
}

/// The instances that write and read each of `count` streams.
fn stream_users(
    alloc: Global,
    tasks: &[Task],
    instances: &[Instance],
    count: usize,
) -> Result<StreamUsers, CheckFault>
    ensures written { ScopeAnswers (λ users. length users.writers.rows.items) result [] count }
    ensures read { ScopeAnswers (λ users. length users.readers.rows.items) result [] count }
    ensures users { IfOk result (λ users. (s : ℕ) (d : Among) → s < count
        → (get_or users.writers.rows.items s d ≡ users_of (program.instances_at (map task_view tasks.now) s true 0 (map flat_instance instances.now)))
        × (get_or users.readers.rows.items s d ≡ users_of (program.instances_at (map task_view tasks.now) s false 0 (map flat_instance instances.now)))) }
{
    let mut users = StreamUsers {
        writers: UserTable::new(alloc, count)?,
        readers: UserTable::new(alloc, count)?,
    };
    for (number, instance) in instances.iter().enumerate() {
        let ends = ends_at(tasks, instance.body);
        users.add_ports(number_of(number)?, &instance.streams, ends);
    }
    Ok(users)
}

/// A stream with its one producer and its one consumer.
fn stream(
    alloc: Global,
    writers: Users,
    readers: Users,
    channel: &Channel,
) -> Result<Stream, CheckFault>
    ensures { (tasks : List table.Task) (instances : List FlatInstance) (number : ℕ)
        → writers ≡ users_of (program.instances_at tasks number true 0 instances)
        → readers ≡ users_of (program.instances_at tasks number false 0 instances)
        → ScopeAnswers (λ s. s) result (program.stream_faults tasks instances number channel.now) (program.stream_of tasks instances number channel.now) }
{
    let producer = writers.only(CheckCode::C4, channel.place)?;
    let consumer = readers.only(CheckCode::C5, channel.place)?;
    Ok(Stream {
        label: copied(alloc, &channel.name)?,
        kind: channel.kind,
        depth: channel.depth,
        producer,
        consumer,
    })
}

/// The streams of a program.
pub(crate) fn streams(
    alloc: Global,
    tasks: &[Task],
    instances: &[Instance],
    channels: &[Channel],
) -> Result<Vec<Stream>, CheckFault>
    ensures { ScopeAnswers (λ made. made.items) result (program.streams_faults (map task_view tasks.now) (map flat_instance instances.now) 0 channels.now)
        (program.streams_of (map task_view tasks.now) (map flat_instance instances.now) 0 channels.now) }
{
    let users = stream_users(alloc, tasks, instances, channels.len())?;
    let mut made = Vec::new(alloc);
    for (number, channel) in channels.iter().enumerate() {
        let writers = users.writers.at(number);
        let readers = users.readers.at(number);
        made.push(stream(alloc, writers, readers, channel)?)?;
    }
    Ok(made)
}

/// Adds an instance once for each of its parameters that is bound to a memory.
fn add_memories(instance: u32, memories: &[u32], owners: &mut UserTable)
    ensures count { length owners.new.rows.items ≡ length owners.old.rows.items }
    ensures owned { (m : ℕ) (d : Among) → m < length owners.old.rows.items
        → get_or owners.new.rows.items m d ≡ with_users (get_or owners.old.rows.items m d) (program.bound_memories instance m memories.now) }
{
    for memory in memories {
        owners.add(*memory, instance);
    }
}

/// The instances that each of `count` memories of the top task is bound to.
fn memory_owners(
    alloc: Global,
    instances: &[Instance],
    count: usize,
) -> Result<UserTable, CheckFault>
    ensures count { ScopeAnswers (λ owners. length owners.rows.items) result [] count }
    ensures owned { IfOk result (λ owners. (m : ℕ) (d : Among) → m < count → get_or owners.rows.items m d ≡ users_of (program.instances_with m 0 (map flat_instance instances.now))) }
{
    let mut owners = UserTable::new(alloc, count)?;
    for (number, instance) in instances.iter().enumerate() {
        add_memories(number_of(number)?, &instance.memories, &mut owners);
    }
    Ok(owners)
}

/// The one owner of the next memory of the top task, where the parameter is one.
fn memory(
    alloc: Global,
    owners: Users,
    parameter: &Parameter,
    memories: &mut Vec<Memory>,
) -> Result<(), CheckFault>
    ensures { (instances : List FlatInstance)
        → owners ≡ users_of (program.instances_with (length memories.old.items) 0 instances)
        → ScopeAnswers (λ x. memories.new.items) result (program.memory_faults instances (length memories.old.items) parameter.now)
        (memories.old.items ++ program.memory_of instances (length memories.old.items) parameter.now) }
{
    let Parameter::Memory {
        constant,
        kind,
        name,
    } = parameter
    else {
        return Ok(());
    };
    let owner = owners.only(CheckCode::C7, name.place)?;
    memories.push(Memory {
        name: copied(alloc, &name.text)?,
        kind: *kind,
        constant: *constant,
        owner,
    })?;
    Ok(())
}

fn is_detached(instances: &[Instance], number: u32) -> bool
    ensures { result ≡ program.is_detached (slice_get (map flat_instance instances.now) number) }
{
    match instances.get(number as usize) {
        Some(instance) => instance.detached,
        None => false,
    }
}

/// Whether something is bound to one instance, which is not waited for.
fn is_of_detached(instances: &[Instance], users: Users) -> bool
    ensures { (bound : List ℕ) → users ≡ users_of bound → result ≡ program.is_of_detached (map flat_instance instances.now) bound }
{
    match users {
        Users::One(instance) => is_detached(instances, instance),
        Users::Nobody => false,
        Users::Several => false,
    }
}

/// Whether the next memory of the top task may be written by an instance that is waited for, where the parameter is one;
/// and the number of the memory after it.
fn check_writer(
    instances: &[Instance],
    number: u32,
    owners: Users,
    parameter: &Parameter,
) -> Result<u32, CheckFault>
    ensures { owners ≡ users_of (program.instances_with number 0 (map flat_instance instances.now))
        → ScopeAnswers (λ next. next) result (program.writer_faults (map flat_instance instances.now) number parameter.now)
        (number + length (program.memory_of (map flat_instance instances.now) number parameter.now)) }
{
    let Parameter::Memory { constant, name, .. } = parameter else {
        return Ok(number);
    };
    let detached = is_of_detached(instances, owners);
    if !*constant && detached {
        return Err(refused(CheckCode::C12, name.place));
    }
    next_number(number)
}

/// No memory of the top task that may be written is of an instance that is not waited for.
fn check_writers(
    instances: &[Instance],
    owners: &UserTable,
    parameters: &[Parameter],
) -> Result<(), CheckFault>
    requires count { length owners.now.rows.items ≡ length parameters.now }
    requires owned { (m : ℕ) (d : Among) → m < length parameters.now → get_or owners.now.rows.items m d ≡ users_of (program.instances_with m 0 (map flat_instance instances.now)) }
    ensures { ScopeAnswers (λ x. x) result (program.writers_faults (map flat_instance instances.now) 0 parameters.now) tt }
{
    let mut number = 0;
    for parameter in parameters {
        let next = owners.at(number as usize);
        let after = check_writer(instances, number, next, parameter)?;
        number = after;
    }
    Ok(())
}

/// The memories of the top task.
pub(crate) fn memories(
    alloc: Global,
    instances: &[Instance],
    parameters: &[Parameter],
) -> Result<Vec<Memory>, CheckFault>
    ensures { ScopeAnswers (λ made. made.items) result (program.memories_faults (map flat_instance instances.now) 0 parameters.now ++ program.writers_faults
        (map flat_instance instances.now) 0 parameters.now) (program.memories_of (map flat_instance instances.now) 0 parameters.now) }
{
    let owners = memory_owners(alloc, instances, parameters.len())?;
    let mut made: Vec<Memory> = Vec::new(alloc);
    for parameter in parameters {
        let next = owners.at(made.len());
        memory(alloc, next, parameter, &mut made)?;
    }
    check_writers(instances, &owners, parameters)?;
    Ok(made)
}
