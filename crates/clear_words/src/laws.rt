//! What holds of the definition of a job. A law has nothing to run; its `ensures` is proved.
ghost use Rattle.clear_words.specs.Job.{job_of, on_both_files};
ghost use Rattle.clear_words.specs.Limits.{IsJob};
ghost use Rattle.clear_words.specs.Options.{may_name_a_file};
ghost use Rattle.clear_words.specs.Tasks.{needs_files_alone, word_of};
ghost use Rattle.clear_words.specs.declared.job.Job.{Job};
ghost use Rattle.clear_words.specs.declared.task.Task.{Task};
ghost use Rattle.std.specs.Prelude.{◌≡◌, ◌∷◌, ℕ, List, Some, [], codes, true};

/// The word of a task for which both files are enough, and then their options, each with a text
/// that may name a file, are a job.
#[tactic(auto, using(crate::proofs::FiveWords::five_words))]
pub fn task_with_both_files_is_a_job()
    ensures { (task : Task) (banks debts : List ℕ) → needs_files_alone task ≡ true
        → may_name_a_file banks ≡ true → may_name_a_file debts ≡ true
        → job_of (word_of task ∷ codes "--banks" ∷ banks ∷ codes "--debts" ∷ debts ∷ [])
        ≡ Some (on_both_files task banks debts) }
{}

/// The numbers of each job that words ask for are within their limits.
#[tactic(auto, using(crate::proofs::WithinLimits::asked_is_job))]
pub fn job_is_within_its_limits()
    ensures { (words : List (List ℕ)) (job : Job) → job_of words ≡ Some job → IsJob job }
{}
