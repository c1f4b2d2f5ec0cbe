// Laws on the form of a task's module.

ghost use Rattle.hw_task_laws.specs.form.Form.{TasksAreFitting, TasksAreModules, TasksAreRight, TasksFit, TasksHaveNoChildren, TasksHaveNoLoop};

/// The elements of a leaf task's module fit one after another, beside any modules.
pub fn law_task_fits()
    ensures alone { TasksFit }
    ensures fitting { TasksAreFitting }
{}

/// So the module breaks no rule on names, widths and drivers, has the form of a module, contains no other one, and none of
/// its nets depends on itself in one cycle.
pub fn law_task_is_right()
    ensures right { TasksAreRight }
    ensures form { TasksAreModules }
    ensures childless { TasksHaveNoChildren }
    ensures loopless { TasksHaveNoLoop }
{}
