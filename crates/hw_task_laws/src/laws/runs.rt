// Laws on runs of a task's module.

ghost use Rattle.hw_task_laws.specs.runs.Machines.{InstancesRun, LoweredIsMachine, RunsMachines};

/// A run of the module runs its machine at its ports, whatever its registers and arrays hold at power-up.
pub fn law_runs()
    ensures runs { RunsMachines }
{}

/// What a leaf is lowered to is such a machine, and an instance of its module in any design runs it.
pub fn law_tasks()
    ensures machines { LoweredIsMachine }
    ensures instances { InstancesRun }
{}
