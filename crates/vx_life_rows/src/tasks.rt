ghost use Rattle.std.specs.Prelude.{◌≡◌};
ghost use Rattle.vx_life_rows.specs.Tasks.{task_in};

use vx_call::Task;
use vx_life::Life;
use vx_message::ItemKind;

/// The task of a waiting item, where it tells of the lives of verticles: a start, a stop, the end of deploying or of
/// undeploying. None for all other kinds. It takes no memory.
pub fn task_of(life: &Life, kind: ItemKind) -> Option<Task>
    ensures { result ≡ task_in life.now kind }
{
    match kind {
        ItemKind::Start(context) => Some(Task::Start(context)),
        ItemKind::Stop(context) => Some(Task::Stop(context)),
        ItemKind::UndeployEnd(deployment) => Some(Task::UndeployEnd(deployment)),
        ItemKind::DeployEnd(deployment) => {
            let result = life.deploy_result(deployment)?;
            Some(Task::DeployEnd { deployment, result })
        }
        _ => None,
    }
}
